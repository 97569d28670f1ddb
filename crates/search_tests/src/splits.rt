//! The choice of a split. The expected splits are worked out by hand; values are in units of 1/65,536.

ghost use Rattle.std.specs.Prelude.{◌≡◌, ◌<◌, ◌-◌, ◌^◌, All, IsTrue, length};
ghost use Rattle.branch_tree.specs.Splits.{HasNumber};

use branch_tree::choose_split;
use path_graph::List;
use route_model::{Boxes, Quantity, Span, Split};
use std::alloc::{AllocError, Global};
use std::process::Abort;
use std::test::Fail;

/// A row: the boxes and values of the variables, then those of the path counts, and the split, if there is one.
#[derive(Clone, Copy)]
struct Row<'a> {
    name: &'a str,
    vars: &'a [(i64, i64)],
    values: &'a [i64],
    paths: &'a [(i64, i64)],
    counts: &'a [i64],
    split: Option<Split>,
}

fn spans_of(alloc: Global, ends: &[(i64, i64)]) -> Result<List<Span>, AllocError> {
    let mut spans = Vec::new(alloc);
    for (low, high) in ends {
        spans.push(Span {
            low: *low,
            high: *high,
        })?;
    }
    Ok(List::from_vec(spans))
}

fn have_numbers(spans: &[Span]) -> bool
    ensures { IsTrue result → All HasNumber spans.now }
{
    spans.iter().all(|span| span.low <= span.high)
}

fn are_few(spans: &List<Span>, values: &[i64]) -> bool
    ensures { IsTrue result → (length values.now ≡ length spans.now) × (length spans.now < 2 ^ 32 - 1) }
{
    spans.len() == values.len() && spans.len() < 4_294_967_295
}

fn check<R: Abort>(rt: &R, alloc: Global, row: &Row<'_>) -> Result<(), Fail> {
    let boxes = Boxes {
        vars: spans_of(alloc, row.vars)?,
        paths: spans_of(alloc, row.paths)?,
    };
    if !have_numbers(boxes.vars.as_slice()) || !have_numbers(boxes.paths.as_slice()) {
        return Err(Fail::new("an empty box"));
    }
    if !are_few(&boxes.vars, row.values) || !are_few(&boxes.paths, row.counts) {
        return Err(Fail::new("not one value for each box"));
    }
    assert_eq!(rt;
        choose_split(&boxes, row.values, row.counts),
        row.split,
        "{}",
        row.name
    );
    Ok(())
}

fn on_var(j: u32, at: i64) -> Option<Split> {
    Some(Split {
        quantity: Quantity::Var(j),
        at,
    })
}

fn on_paths(g: u32, at: i64) -> Option<Split> {
    Some(Split {
        quantity: Quantity::Paths(g),
        at,
    })
}

#[test]
fn splits(rt: HostRuntime) -> Result<(), Fail> {
    for row in [
        Row {
            name: "no box",
            vars: [].as_slice(),
            values: [].as_slice(),
            paths: [].as_slice(),
            counts: [].as_slice(),
            split: None,
        },
        Row {
            name: "points",
            vars: [(1, 1), (0, 0)].as_slice(),
            values: [32_768, 32_768].as_slice(),
            paths: [(2, 2)].as_slice(),
            counts: [32_768].as_slice(),
            split: None,
        },
        // 1.5 lies between 1 and 2.
        Row {
            name: "one box",
            vars: [(1, 1), (0, 2)].as_slice(),
            values: [32_768, 98_304].as_slice(),
            paths: [(2, 2)].as_slice(),
            counts: [131_072].as_slice(),
            split: on_var(1, 1),
        },
        Row {
            name: "a value at the high end",
            vars: [(0, 2)].as_slice(),
            values: [131_072].as_slice(),
            paths: [(2, 2)].as_slice(),
            counts: [131_072].as_slice(),
            split: on_var(0, 1),
        },
        Row {
            name: "a value below the box",
            vars: [(3, 9)].as_slice(),
            values: [-65_537].as_slice(),
            paths: [].as_slice(),
            counts: [].as_slice(),
            split: on_var(0, 3),
        },
        // The variable is nearer to a half, but 3.25 paths come first.
        Row {
            name: "a path count first",
            vars: [(0, 1)].as_slice(),
            values: [32_768].as_slice(),
            paths: [(0, 0), (1, 8)].as_slice(),
            counts: [32_768, 212_992].as_slice(),
            split: on_paths(1, 3),
        },
        // 3 + 1,310 / 65,536 paths are no more than 1/50 from a whole number.
        Row {
            name: "a path count that is nearly whole",
            vars: [(0, 1)].as_slice(),
            values: [1].as_slice(),
            paths: [(1, 8)].as_slice(),
            counts: [197_918].as_slice(),
            split: on_var(0, 0),
        },
        Row {
            name: "a path count alone is nearly whole",
            vars: [(0, 1)].as_slice(),
            values: [65_536].as_slice(),
            paths: [(1, 8)].as_slice(),
            counts: [197_918].as_slice(),
            split: on_paths(0, 3),
        },
        // 0.75 is as far from a whole number as 0.25, and 0.4 is further.
        Row {
            name: "the variable nearest to a half",
            vars: [(0, 1), (0, 1), (0, 1)].as_slice(),
            values: [16_384, 26_214, 49_152].as_slice(),
            paths: [(0, 8)].as_slice(),
            counts: [131_072].as_slice(),
            split: on_var(1, 0),
        },
        Row {
            name: "the first of two",
            vars: [(0, 0), (0, 1), (0, 1)].as_slice(),
            values: [32_768, 16_384, 49_152].as_slice(),
            paths: [].as_slice(),
            counts: [].as_slice(),
            split: on_var(1, 0),
        },
    ] {
        check(&rt, rt.alloc(), &row)?;
    }
    Ok(())
}
