ghost use Rattle.std.specs.Prelude.{◌≡◌, ◌↔◌, IsTrue, IsOk, ◌<◌, ◌≤◌, length, MatchOption, List, sum_by};
ghost use Rattle.path_graph.specs.First.{EachBelow};
ghost use Rattle.rank1_cuts.specs.Solutions.{TakenWalk, VisitEachOnce, coef_in};
ghost use Rattle.rank1_cuts.specs.Fit.{Stands, IsRepeated, IsNumerator, HasNumerator, IsFirst, CutFits, IsFault, right_side_of};

use crate::cut::{Cut, CutFault, CutSet};

/// Whether a cut fits, or else its first fault: in the order of the faults, then of the list.
///
/// The time grows as the square of the number of sets. It takes no memory.
pub fn cut_fits(cut: &Cut) -> Result<(), CutFault>
    ensures fits { IsOk result ↔ CutFits cut.now }
    ensures fault { (fault : CutFault) → (result ≡ Err fault) ↔ IsFault cut.now fault }
{
    match first_fault(cut) {
        Some(fault) => Err(fault),
        None => Ok(()),
    }
}

fn first_fault(cut: &Cut) -> Option<CutFault>
    ensures { MatchOption result (CutFits cut.now) (IsFault cut.now) }
{
    let sets = cut.sets.as_slice();
    if cut.den < 2 || cut.den > 8 {
        return Some(CutFault::Denominator);
    }
    if sets.is_empty() {
        return Some(CutFault::Empty);
    }
    if sets.len() > 16 {
        return Some(CutFault::Long);
    }
    if let Some(place) = first_repeated(sets) {
        return Some(CutFault::Repeated(sets[place].set));
    }
    if let Some(place) = first_bad_numerator(cut.den, sets) {
        return Some(CutFault::Numerator(sets[place].set));
    }
    None
}

fn first_repeated(sets: &[CutSet]) -> Option<usize>
    ensures { MatchOption result (EachBelow (length sets.now) (λ k. ¬ (IsRepeated sets.now k)))
        (IsFirst (length sets.now) (IsRepeated sets.now)) }
{
    for (place, each) in sets.iter().enumerate() {
        if stands_before(sets, place, each.set) {
            return Some(place);
        }
    }
    None
}

/// Whether a set stands at a place before this one.
fn stands_before(sets: &[CutSet], place: usize, set: u16) -> bool
    requires { place < length sets.now }
    ensures { IsTrue result ↔ Stands sets.now place set }
{
    for k in 0..place {
        if sets[k].set == set {
            return true;
        }
    }
    false
}

fn first_bad_numerator(den: u8, sets: &[CutSet]) -> Option<usize>
    ensures { MatchOption result (EachBelow (length sets.now) (HasNumerator den sets.now))
        (IsFirst (length sets.now) (λ k. ¬ (HasNumerator den sets.now k))) }
{
    for (place, each) in sets.iter().enumerate() {
        if !is_numerator(den, each.num) {
            return Some(place);
        }
    }
    None
}

fn is_numerator(den: u8, num: u8) -> bool
    ensures { IsTrue result ↔ IsNumerator den num }
{
    1 <= num && num < den
}

/// The right side of a cut: the sum of its numerators over its denominator, rounded down.
///
/// With numerators 1, 1, 1 over 2 it is 1: of three sets of which a plan visits each at most once, at most one pair is
/// gathered. Walks that visit no set twice together keep the cut, whatever its memory: so do those of every solution.
pub fn right_side(cut: &Cut) -> u32
    requires { CutFits cut.now }
    ensures side { result ≡ right_side_of cut.now }
    ensures kept { (walks : List TakenWalk) → VisitEachOnce walks → coef_in cut.now walks ≤ result }
{
    numerator_sum(cut.sets.as_slice()) / u32::from(cut.den)
}

fn numerator_sum(sets: &[CutSet]) -> u32
    requires { length sets.now ≤ 16 }
    ensures { result ≡ sum_by (λ each. each.num) sets.now }
{
    let mut sum = 0;
    for each in sets {
        sum += u32::from(each.num);
    }
    sum
}
