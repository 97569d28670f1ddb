ghost use Rattle.std.specs.Prelude.{◌≡◌, ◌<◌, ◌++◌, ℕ, List, Option, reverse};
ghost use Rattle.rank1_cuts.specs.Fit.{CutFits};
ghost use Rattle.rank1_cuts.specs.Solutions.{coef_joined};
ghost use Rattle.rank1_cuts.specs.Visits.{numerator_of, rises, state_after, coef_of};

use crate::cut::{Cut, CutSet};

/// The state of a cut after one more visit, and whether its coefficient rises there.
///
/// A visit of no set changes nothing. A visit to a set outside the memory, as is each number of 512 or more, makes the
/// state 0. A visit to a set inside adds its numerator, if it is in the cut; on reaching the denominator, that is
/// subtracted and the coefficient rises by 1.
///
/// What limited memory loses: the cut of denominator 2 on the sets 0, 1, 2, each with numerator 1, and with all three
/// as its memory has the states 1, 0, 1 over the visits 0, 1, 2, and coefficient 1. With 0 and 2 as its memory the
/// visit to 1 makes the state 0, and the coefficient is 0.
pub fn step_state(cut: &Cut, state: u8, set: Option<u16>) -> (u8, bool)
    requires fits { CutFits cut.now }
    requires state { state < cut.now.den }
    ensures state { result.0 ≡ state_after cut.now state set }
    ensures rises { result.1 ≡ rises cut.now state set }
    ensures below { result.0 < cut.now.den }
{
    let sum = match set {
        None => state,
        Some(s) if cut.memory.has(s) => state + numerator(cut, s),
        Some(_) => 0,
    };
    if sum >= cut.den {
        (sum - cut.den, true)
    } else {
        (sum, false)
    }
}

/// The numerator of a set, 0 where it is not in the cut.
fn numerator(cut: &Cut, set: u16) -> u8
    requires { CutFits cut.now }
    ensures numerator { result ≡ numerator_of cut.now.sets set }
    ensures below { result < cut.now.den }
{
    for each in cut.sets.as_slice() {
        if each.set == set {
            return each.num;
        }
    }
    0
}

/// The coefficient of a cut on a list of visits, from state 0 on: how often it rises.
///
/// Where the visits are cut in two, it is that of the first, plus that of the rest from its end back, plus 1 where the
/// two states make up the denominator. The time grows as the number of visits times that of sets. It takes no memory.
pub fn coef(cut: &Cut, sets: &[Option<u16>]) -> u64
    requires { CutFits cut.now }
    ensures coef { result ≡ coef_of cut.now sets.now }
    ensures join { (first rest : List (Option ℕ)) → sets.now ≡ first ++ rest
        → result ≡ coef_joined cut.now first (reverse rest) }
{
    rise_count(cut, sets)
}

/// How often the coefficient of a cut rises over visits, from state 0 on.
fn rise_count(cut: &Cut, sets: &[Option<u16>]) -> u64
    requires { CutFits cut.now }
    ensures { result ≡ coef_of cut.now sets.now }
{
    let mut state = 0;
    let mut coef = 0;
    for set in sets {
        let (next, rises) = step_state(cut, state, *set);
        state = next;
        coef += u64::from(rises);
    }
    coef
}
