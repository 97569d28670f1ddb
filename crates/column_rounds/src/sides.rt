//! The rows of the master: variables, rows of the model, packing sets and path counts, in this order.

ghost use Rattle.std.specs.Prelude.{◌≡◌, ◌+◌, IfOk, OnOk, length};
ghost use Rattle.route_model.specs.Places.{SpotFits};
ghost use Rattle.column_rounds.specs.Masters.{row_count};

use crate::task::Task;
use fixed_master::Side;
use path_graph::NoMemory;
use route_model::{Row, Span};
use std::alloc::Global;

/// The sides of the rows at a place.
pub(crate) fn sides_of(alloc: Global, task: &Task) -> Result<Vec<Side>, NoMemory>
    requires { SpotFits task.now.model.now task.now.spot.now }
    ensures { IfOk result (λ sides. length sides.items ≡ row_count task.now.model.now) }
{
    let model = task.model;
    let spot = task.spot;
    let mut sides = Vec::new(alloc);
    push_spans(&mut sides, spot.boxes.vars.as_slice())?;
    push_rows(&mut sides, model.rows.as_slice())?;
    push_sets(&mut sides, model.sets)?;
    push_spans(&mut sides, spot.boxes.paths.as_slice())?;
    Ok(sides)
}

/// Boxes of variables or path counts.
fn push_spans(sides: &mut Vec<Side>, spans: &[Span]) -> Result<(), NoMemory>
    ensures { OnOk result (length sides.new.items ≡ length sides.old.items + length spans.now) }
{
    for span in spans {
        sides.push(Side {
            low: Some(span.low),
            high: Some(span.high),
        })?;
    }
    Ok(())
}

/// Rows of the model.
fn push_rows(sides: &mut Vec<Side>, rows: &[Row]) -> Result<(), NoMemory>
    ensures { OnOk result (length sides.new.items ≡ length sides.old.items + length rows.now) }
{
    for row in rows {
        sides.push(Side {
            low: row.low,
            high: row.high,
        })?;
    }
    Ok(())
}

/// Packing sets: each is visited at most once.
fn push_sets(sides: &mut Vec<Side>, count: u16) -> Result<(), NoMemory>
    ensures { OnOk result (length sides.new.items ≡ length sides.old.items + count) }
{
    for _set in 0..count {
        sides.push(Side {
            low: None,
            high: Some(1),
        })?;
    }
    Ok(())
}
