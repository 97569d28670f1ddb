ghost use Rattle.std.specs.Prelude.{◌≡◌, ◌↔◌, IsTrue, ℕ, ◌+◌, ◌-◌, ◌<◌, ◌≤◌, ◌^◌, length, min, slice_index, unsigned_abs, if◌then◌else◌, ◌==◌};
ghost use Rattle.route_model.specs.Fit.{row_coef, total_coef};

use crate::limits::MAX_COEF_SUM;
use crate::parts::{Row, RowTerm};

/// How many variables one pass over the terms looks at.
const BLOCK: usize = 1_024;

/// Whether the absolute coefficients of each variable over the rows sum to at most `MAX_COEF_SUM`.
pub fn coefs_fit(count: usize, rows: &[Row]) -> bool
    ensures { IsTrue result ↔ ((j : ℕ) → j < count → total_coef rows.now j ≤ MAX_COEF_SUM) }
{
    for block in 0..count.div_ceil(BLOCK) {
        if !block_fits(block * BLOCK, count, rows) {
            return false;
        }
    }
    true
}

/// The same of the variables of a block.
fn block_fits(start: usize, count: usize, rows: &[Row]) -> bool
    ensures { IsTrue result ↔ ((k : ℕ) → k < 1024 → start + k < count → total_coef rows.now (start + k) ≤ MAX_COEF_SUM) }
{
    let totals = block_totals(start, rows);
    for (k, total) in totals.iter().enumerate() {
        if k < count.saturating_sub(start) && *total > MAX_COEF_SUM {
            return false;
        }
    }
    true
}

/// The absolute coefficients of each variable of a block, or the greatest `u64` where that is less.
fn block_totals(start: usize, rows: &[Row]) -> [u64; BLOCK]
    ensures { (k : ℕ) → k < 1024 → slice_index result k ≡ min (total_coef rows.now (start + k)) (2 ^ 64 - 1) }
{
    let mut totals = [0; BLOCK];
    for row in rows {
        add_row(&mut totals, start, row.terms.as_slice());
    }
    totals
}

/// Adds the absolute coefficients of a row to the totals of the variables from `start` on.
fn add_row(totals: &mut [u64; BLOCK], start: usize, terms: &[RowTerm])
    ensures { (k : ℕ) → k < 1024 →
        slice_index totals.new k ≡ min (slice_index totals.old k + row_coef (start + k) terms.now) (2 ^ 64 - 1) }
{
    for term in terms {
        add_term(totals, start, term);
    }
}

fn add_term(totals: &mut [u64; BLOCK], start: usize, term: &RowTerm)
    ensures { (k : ℕ) → k < 1024 → slice_index totals.new k
        ≡ min (slice_index totals.old k + (if term.now.var == start + k then unsigned_abs term.now.coef else 0)) (2 ^ 64 - 1) }
{
    let var = term.var as usize;
    if var < start || var - start >= BLOCK {
        return;
    }
    let total = totals[var - start];
    totals[var - start] = total.saturating_add(term.coef.unsigned_abs());
}
