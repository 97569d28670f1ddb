//! The entries of a column.

ghost use Rattle.std.specs.Prelude.{◌≡◌, ℕ, ◌+◌, ◌<◌, ◌≤◌, ◌^◌, pos, ◌*ℤ◌, [], ◌∷◌, ◌++◌, All, OnOk, length, map, slice_index};
ghost use Rattle.path_graph.specs.First.{EachBelow};
ghost use Rattle.path_graph.specs.Within.{IsWithin};
ghost use Rattle.rank1_cuts.specs.Fit.{CutFits};
ghost use Rattle.rank1_cuts.specs.Visits.{coef_of};
ghost use Rattle.route_model.specs.Fit.{TermFits};
ghost use Rattle.column_pool.specs.declared.limits.TheConstants.{MAX_WALK_ARCS};
ghost use Rattle.column_pool.specs.Amounts.{sum_with};
ghost use Rattle.column_pool.specs.Columns.{entries_from};

use crate::amounts::term_sum;
use fixed_master::Entry;
use path_graph::NoMemory;
use rank1_cuts::{Cut, coef};
use route_model::Row;

/// Adds the entry of an amount, unless that is 0.
pub(crate) fn push_entry(entries: &mut Vec<Entry>, row: usize, value: i64) -> Result<(), NoMemory>
    requires { row < 2 ^ 32 }
    ensures { OnOk result (entries.new.items ≡ entries.old.items ++ entries_from row (value ∷ [])) }
{
    if value != 0 {
        entries.push(Entry {
            row: row as u32,
            value,
        })?;
    }
    Ok(())
}

/// Adds the entries of counts, the first of which has the row `from`.
pub(crate) fn push_counts(
    entries: &mut Vec<Entry>,
    from: usize,
    counts: &[u32],
) -> Result<(), NoMemory>
    requires { from + length counts.now < 2 ^ 32 }
    ensures { OnOk result (entries.new.items ≡ entries.old.items ++ entries_from from (map (λ n. pos n) counts.now)) }
{
    for (k, count) in counts.iter().enumerate() {
        push_entry(entries, from + k, i64::from(*count))?;
    }
    Ok(())
}

/// Adds the entries of the sums of rows.
pub(crate) fn push_rows(
    entries: &mut Vec<Entry>,
    from: usize,
    rows: &[Row],
    uses: &[u32],
) -> Result<(), NoMemory>
    requires places { from + length rows.now < 2 ^ 32 }
    requires terms { All (λ row. All (TermFits (length uses.now)) row.terms × (length row.terms ≤ 1000000)) rows.now }
    requires few { EachBelow (length uses.now) (λ j. slice_index uses.now j ≤ MAX_WALK_ARCS) }
    requires near { All (λ row. IsWithin (2 ^ 62) (sum_with (slice_index uses.now) row.terms)) rows.now }
    ensures { OnOk result (entries.new.items ≡ entries.old.items ++ entries_from from (map (λ row. sum_with (slice_index uses.now) row.terms) rows.now)) }
{
    for (k, row) in rows.iter().enumerate() {
        push_entry(entries, from + k, term_sum(row.terms.as_slice(), uses))?;
    }
    Ok(())
}

/// Adds the entries of the coefficients of cuts on visits.
pub(crate) fn push_cuts(
    entries: &mut Vec<Entry>,
    from: usize,
    cuts: &[Cut],
    visits: &[Option<u16>],
) -> Result<(), NoMemory>
    requires places { from + length cuts.now < 2 ^ 32 }
    requires fit { All CutFits cuts.now }
    requires few { length visits.now ≤ MAX_WALK_ARCS }
    ensures { OnOk result (entries.new.items ≡ entries.old.items ++ entries_from from (map (λ cut. pos (coef_of cut visits.now)) cuts.now)) }
{
    for (k, cut) in cuts.iter().enumerate() {
        push_entry(entries, from + k, coefficient(cut, visits))?;
    }
    Ok(())
}

/// The coefficient of a cut, which is at most the number of visits.
fn coefficient(cut: &Cut, visits: &[Option<u16>]) -> i64
    requires fit { CutFits cut.now }
    requires few { length visits.now ≤ MAX_WALK_ARCS }
    ensures { result ≡ pos (coef_of cut.now visits.now) }
{
    coef(cut, visits) as i64
}
