//! The tables of a row: the labels of lines `fore` and `back`, with the thresholds of `top` and `above`, the `least` join of
//! both, and for an arc `over` whether all joins are above a limit.

ghost use Rattle.route_labels.specs.Fit.{FieldFits};

use crate::joined::may_all_join;
use crate::labels::{check_labels, cost_or_none, cut_line};
use concatenate::{all_joins_above, least_join};
use path_graph::List;
use plain_table::Filled;
use route_labels::{Field, Label, backward_table, forward_table, kept};
use std::alloc::Global;
use std::process::Abort;
use std::test::Fail;
use test_places::said::after;

/// The threshold behind a word, if there is one.
pub fn threshold(said: &str, word: &str) -> Result<Option<i32>, Fail> {
    match after(said, word) {
        None => Ok(None),
        Some(text) => Ok(Some(text.trim().parse::<i32>()?)),
    }
}

/// The kept labels of a closed table.
fn closed(alloc: Global, filled: Filled<Label>) -> Result<List<Label>, Fail> {
    match filled {
        Filled::Closed(table) => Ok(kept(alloc, &table)?),
        Filled::Wall(_) => Err(Fail::new("a wall")),
        Filled::Memory => Err(Fail::new("no memory")),
    }
}

/// The least join of the lists, against the one that is said, and the joins over single arcs.
fn check_least<R: Abort>(
    rt: &R,
    field: Field,
    fore: &[Label],
    back: &[Label],
    said: &str,
) -> Result<(), Fail>
    requires { FieldFits field }
{
    if !may_all_join(field, fore) || !may_all_join(field, back) {
        return Err(Fail::new("labels out of range"));
    }
    if let Some(text) = after(said, "least ") {
        let least = least_join(&field, fore, back);
        assert_eq!(rt; least, cost_or_none(text.trim())?, "{said}");
    }
    let count = field.path_graph().arc_count();
    for line in said.lines() {
        if let Some(rest) = line.strip_prefix("over ") {
            let (arc, rest) = cut_line(rest)?;
            let (limit, expected) = cut_line(rest)?;
            let (arc, limit) = (arc.parse::<u32>()?, limit.parse::<i64>()?);
            if arc >= count {
                return Err(Fail::new("an unknown arc"));
            }
            let above = all_joins_above(&field, fore, arc, back, i128::from(limit));
            assert_eq!(rt; above, expected == "yes", "{line}");
        }
    }
    Ok(())
}

/// Both tables of a row.
pub fn check_tables<R: Abort>(rt: &R, alloc: Global, field: Field, said: &str) -> Result<(), Fail>
    requires { FieldFits field }
{
    let ends = field.path_graph().ends();
    let top = threshold(said, "top ")?;
    let above = threshold(said, "above ")?;
    let fore = closed(alloc, forward_table(alloc, field, top, 1_000))?;
    let back = closed(alloc, backward_table(alloc, field, above, 1_000))?;
    if after(said, "fore ").is_some() {
        check_labels(rt, &ends, fore.as_slice(), said, "fore ")?;
    }
    if after(said, "back ").is_some() {
        check_labels(rt, &ends, back.as_slice(), said, "back ")?;
    }
    check_least(rt, field, fore.as_slice(), back.as_slice(), said)
}
