//! The answer: whatever was found, taken to the nearest number that is allowed.

ghost use Rattle.std.specs.Prelude.{◌≡◌, All, IfOk, length};
ghost use Rattle.std.specs.List.{AllZip};
ghost use Rattle.fixed_master.specs.Duals.{IsWeight, SuitsSide};

use crate::limits::{MAX_MULTIPLIER, MAX_WEIGHT};
use crate::parts::Side;
use crate::working::WorkingRow;
use fixed_point::{number_at, quotient, set_number};
use fixed_simplex::{Basic, Member};
use path_graph::{List, NoMemory};
use std::alloc::Global;

/// A unit of a price of a row of divisor 1, in the answer.
const ANSWER_UNIT: i64 = 1 << 14;

/// The nearest multiplier that a side allows.
fn allowed_mult(side: Side, mult: i64) -> i64
    ensures { SuitsSide side result }
{
    let least = if side.high.is_none() {
        0
    } else {
        -MAX_MULTIPLIER
    };
    let most = if side.low.is_none() {
        0
    } else {
        MAX_MULTIPLIER
    };
    mult.clamp(least, most)
}

/// The nearest weight that is allowed.
fn allowed_weight(weight: i64) -> i64
    ensures { IsWeight result }
{
    weight.clamp(0, MAX_WEIGHT)
}

/// The nearest multiplier that each side allows.
pub(crate) fn allowed_mults(
    alloc: Global,
    sides: &[Side],
    found: &[i64],
) -> Result<List<i64>, NoMemory>
    ensures { IfOk result (AllZip SuitsSide sides.now) }
{
    let mut mult = List::new(alloc);
    for (place, side) in sides.iter().enumerate() {
        mult.push(allowed_mult(*side, number_at(found, place)))?;
    }
    Ok(mult)
}

/// The nearest weight of each column.
pub(crate) fn allowed_weights(
    alloc: Global,
    count: usize,
    found: &[i64],
) -> Result<List<i64>, NoMemory>
    ensures count { IfOk result (λ weights. length weights ≡ count) }
    ensures range { IfOk result (All IsWeight) }
{
    let mut weights = List::new(alloc);
    for place in 0..count {
        weights.push(allowed_weight(number_at(found, place)))?;
    }
    Ok(weights)
}

/// A price in units of 1/65,536 of an entry's price, rounded.
fn price_in_answer(price: i64, divisor: i64) -> i64 {
    let unit = divisor.saturating_mul(ANSWER_UNIT);
    let half = if price < 0 { -(unit / 2) } else { unit / 2 };
    quotient(i128::from(price) + i128::from(half), unit)
}

/// The multiplier found for each row.
pub(crate) fn found_mults(
    alloc: Global,
    rows: &[WorkingRow],
    prices: &[i64],
    count: usize,
) -> Result<Vec<i64>, NoMemory> {
    let mut found = vec![in alloc; 0i64; count]?;
    for (place, working) in rows.iter().enumerate() {
        let price = price_in_answer(number_at(prices, place), working.divisor);
        set_number(found.as_mut_slice(), working.row, price);
    }
    Ok(found)
}

/// The weight found for each column. A basic column has at least 1.
pub(crate) fn found_weights(
    alloc: Global,
    basics: &[Basic],
    count: usize,
) -> Result<Vec<i64>, NoMemory> {
    let mut found = vec![in alloc; 0i64; count]?;
    for basic in basics {
        if let Member::Column(place) = basic.member {
            let weight = basic.value.saturating_add(128) >> 8;
            set_number(found.as_mut_slice(), place, weight.max(1));
        }
    }
    Ok(found)
}
