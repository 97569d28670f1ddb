ghost use Rattle.std.specs.Prelude.{◌≡◌, ◌<◌, ◌≤◌, ◌^◌, ◌-◌, ℕ, ℤ, pos, neg_ℤ, take, drop, IfOk, if◌then◌else◌};
ghost use Rattle.vrp_lex.specs.Text.{words_of};
ghost use Rattle.path_graph.specs.Fit.{is_used_at};
ghost use Rattle.path_graph.specs.Walk.{positions};
ghost use Rattle.line_text.specs.Gives.{Gives, IsShorter};
ghost use Rattle.line_text.specs.Words.{for_each, give};
ghost use Rattle.certificate.specs.LabelWords.{value_at, state_places, state_at, states_wanted, label_wanted};

use crate::set_words::memory_of;
use crate::sizes::Shape;
use label_rules::Label;
use line_text::{Kind, LineFault, fault_if, known_below, natural_in, number_in, wide_in, word};
use path_graph::{Ends, MAX_SETS, Values, is_used};
use std::alloc::Global;

/// How far the cost of a label may be from 0: 2^112.
pub const MAX_LABEL_COST: i128 = 1 << 112;

/// The value at a position, where it has a resource.
fn value_at<'a>(words: &'a [u8], ends: &Ends, place: usize) -> Result<(i32, &'a [u8]), LineFault>
    requires { place < 6 }
    ensures { Gives (λ x. (x.0, words_of x.1.now)) result (value_at ends.now place (words_of words.now)) }
{
    if is_used(ends, place) {
        let (value, words) = number_in(words, i64::from(i32::MIN), i64::from(i32::MAX))?;
        Ok((value as i32, words))
    } else {
        Ok((0, words))
    }
}

/// A value for each resource.
fn values_of<'a>(words: &'a [u8], ends: &Ends) -> Result<([i32; 6], &'a [u8]), LineFault>
    ensures { Gives (λ x. (x.0, words_of x.1.now)) result
        (for_each (value_at ends.now) positions (words_of words.now)) }
{
    let mut values = [0; 6];
    let mut rest = words;
    for place in 0..6 {
        let (value, behind) = value_at(rest, ends, place)?;
        values[place] = value;
        rest = behind;
    }
    Ok((values, rest))
}

/// The state of the cut of this number, where there is one.
fn state_at(words: &[u8], cuts: usize, place: usize) -> Result<(u8, &[u8]), LineFault>
    requires { place < 64 }
    ensures { Gives (λ x. (x.0, words_of x.1.now)) result (state_at cuts place (words_of words.now)) }
{
    if place < cuts {
        let (state, words) = natural_in(words, 0, 255)?;
        Ok((state as u8, words))
    } else {
        Ok((0, words))
    }
}

/// A state for each cut.
fn each_state(words: &[u8], cuts: usize) -> Result<([u8; 64], &[u8]), LineFault>
    ensures { Gives (λ x. (x.0, words_of x.1.now)) result
        (for_each (state_at cuts) state_places (words_of words.now)) }
{
    let mut states = [0; 64];
    let mut rest = words;
    for place in 0..64 {
        let (state, behind) = state_at(rest, cuts, place)?;
        states[place] = state;
        rest = behind;
    }
    Ok((states, rest))
}

/// `s STATE ..`, where there are cuts.
fn states_of(words: &[u8], cuts: usize) -> Result<([u8; 64], &[u8]), LineFault>
    ensures { Gives (λ x. (x.0, words_of x.1.now)) result (states_wanted cuts (words_of words.now)) }
{
    if cuts == 0 {
        return each_state(words, cuts);
    }
    let (key, words) = word(words)?;
    fault_if(Kind::Word, key != b"s".as_slice())?;
    each_state(words, cuts)
}

/// `VERTEX COST VALUE ..`, then the memory and the states of a label.
pub fn label_of<'a>(
    alloc: Global,
    words: &'a [u8],
    shape: &Shape,
) -> Result<(Label, &'a [u8]), LineFault>
    requires { shape.now.sets ≤ MAX_SETS }
    ensures { Gives (λ x. (x.0, words_of x.1.now)) result (label_wanted shape.now (words_of words.now)) }
{
    let (vertex, words) = known_below(words, shape.vertices)?;
    let (cost, words) = wide_in(words, -MAX_LABEL_COST, MAX_LABEL_COST)?;
    let (at, words) = values_of(words, &shape.ends)?;
    let (memory, words) = memory_of(alloc, words, shape.sets)?;
    let (states, words) = states_of(words, shape.cuts)?;
    let values = Values { at };
    Ok((
        Label {
            vertex,
            values,
            memory,
            states,
            cost,
        },
        words,
    ))
}
