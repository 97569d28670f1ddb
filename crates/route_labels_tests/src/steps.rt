//! Single extensions and tests of dominance. A line `forward` or `backward` has a label, the number of a choice, and the label
//! over it or none; a line `better` or `better_back` has two labels, and whether the first dominates the second.

ghost use Rattle.route_labels.specs.Fit.{FieldFits};

use crate::labels::{cut_line, label_of, label_or_none};
use crate::tables::threshold;
use label_space::Space;
use path_graph::Ends;
use route_labels::{Backward, Field, Forward, Label};
use std::process::Abort;
use std::test::Fail;

/// One extension, in either space.
fn check_step<R: Abort, S: Space<Label = Label>>(
    rt: &R,
    ends: &Ends,
    space: &S,
    line: &str,
) -> Result<(), Fail> {
    let (label, rest) = cut_line(line)?;
    let (choice, expected) = cut_line(rest)?;
    let label = label_of(ends, label)?;
    let choice = choice.parse::<u32>()?;
    if !space.fits(&label) || choice >= space.degree(&label) {
        return Err(Fail::new("no label of the space, or no choice of it"));
    }
    let next = space.extend(&label, choice);
    assert_eq!(rt; next, label_or_none(ends, expected)?, "{line}");
    Ok(())
}

/// One test of dominance, in either space.
fn check_better<R: Abort, S: Space<Label = Label>>(
    rt: &R,
    ends: &Ends,
    space: &S,
    line: &str,
) -> Result<(), Fail> {
    let (first, rest) = cut_line(line)?;
    let (second, expected) = cut_line(rest)?;
    let (first, second) = (label_of(ends, first)?, label_of(ends, second)?);
    if !space.fits(&first) || !space.fits(&second) {
        return Err(Fail::new("no label of the space"));
    }
    let better = space.dominates(&first, &second);
    assert_eq!(rt; better, expected == "yes", "{line}");
    assert!(rt; space.same(&first, &first), "{line}");
    Ok(())
}

/// All of a row.
pub fn check_steps<R: Abort>(rt: &R, field: Field, said: &str) -> Result<(), Fail>
    requires { FieldFits field }
{
    let ends = field.path_graph().ends();
    let forward = Forward::new(field, threshold(said, "top ")?);
    let backward = Backward::new(field, threshold(said, "above ")?);
    for line in said.lines() {
        if let Some(rest) = line.strip_prefix("forward ") {
            check_step(rt, &ends, &forward, rest)?;
        } else if let Some(rest) = line.strip_prefix("backward ") {
            check_step(rt, &ends, &backward, rest)?;
        } else if let Some(rest) = line.strip_prefix("better ") {
            check_better(rt, &ends, &forward, rest)?;
        } else if let Some(rest) = line.strip_prefix("better_back ") {
            check_better(rt, &ends, &backward, rest)?;
        }
    }
    Ok(())
}
