ghost use Rattle.std.specs.Prelude.{◌≡◌, ℕ, ◌<◌, ◌≤◌, length, IfOk};
ghost use Rattle.vrp_lex.specs.Text.{words_of};
ghost use Rattle.path_graph.specs.Fit.{is_used_at};
ghost use Rattle.model_text.specs.LineWords.{var_wanted, side_wanted, are_reversed, is_above, sets_wanted, set_wanted, window_wanted, graph_wanted, need_wanted};
ghost use Rattle.line_text.specs.Gives.{Gives, IsShorter};

use crate::draft::Section;
use line_text::{
    Kind, LineFault, fault_if, known_below, known_word, limited_word, natural_in, number_in, word,
};
use path_graph::{Ends, MAX_AMOUNT, MAX_SETS, Window};
use route_model::{MAX_COST, MAX_SIDE, MAX_VALUE, Var};

/// `LOW HIGH COST` of a variable.
pub fn var_of(words: &[u8]) -> Result<(Var, &[u8]), LineFault>
    ensures { Gives (λ x. (x.0, words_of x.1.now)) result (var_wanted (words_of words.now)) }
{
    let (low, words) = number_in(words, 0, MAX_VALUE)?;
    let (high, words) = number_in(words, 0, MAX_VALUE)?;
    fault_if(Kind::Box, high < low)?;
    let (cost, words) = number_in(words, -(MAX_COST as i64), MAX_COST as i64)?;
    Ok((Var { low, high, cost }, words))
}

/// A side of a row: a number, or `*`, which is open.
pub fn side_of(words: &[u8]) -> Result<(Option<i64>, &[u8]), LineFault>
    ensures { Gives (λ x. (x.0, words_of x.1.now)) result (side_wanted (words_of words.now)) }
{
    let (word, words) = word(words)?;
    if word == b"*".as_slice() {
        return Ok((None, words));
    }
    let side = limited_word(word, -(MAX_SIDE as i64), MAX_SIDE as i64)?;
    Ok((Some(side), words))
}

/// Whether the high side is below the low one.
pub fn are_reversed(low: Option<i64>, high: Option<i64>) -> bool
    ensures { result ≡ are_reversed low high }
{
    match (low, high) {
        (Some(low), Some(high)) => high < low,
        _ => false,
    }
}

/// `NUMBER` of packing sets.
pub fn sets_of(words: &[u8]) -> Result<(u16, &[u8]), LineFault>
    ensures { Gives (λ x. (x.0, words_of x.1.now)) result (sets_wanted (words_of words.now)) }
{
    let (sets, words) = natural_in(words, 0, u32::from(MAX_SETS))?;
    Ok((sets as u16, words))
}

/// The set of a vertex: a declared one, or `-` for none.
pub fn set_of(words: &[u8], sets: u16) -> Result<(Option<u16>, &[u8]), LineFault>
    ensures { Gives (λ x. (x.0, words_of x.1.now)) result (set_wanted sets (words_of words.now)) }
{
    let (word, words) = word(words)?;
    if word == b"-".as_slice() {
        return Ok((None, words));
    }
    let set = known_word(word, u32::from(sets))?;
    Ok((Some(set as u16), words))
}

/// `LOW HIGH` of a window.
pub fn window_of(words: &[u8]) -> Result<(Window, &[u8]), LineFault>
    ensures { Gives (λ x. (x.0, words_of x.1.now)) result (window_wanted (words_of words.now)) }
{
    let (low, words) = number_in(words, -i64::from(MAX_AMOUNT), i64::from(MAX_AMOUNT))?;
    let (high, words) = number_in(words, -i64::from(MAX_AMOUNT), i64::from(MAX_AMOUNT))?;
    fault_if(Kind::Window, high < low)?;
    let window = Window {
        low: low as i32,
        high: high as i32,
    };
    Ok((window, words))
}

/// The consumption at a position; the main ones, at 0 and 1, are not negative.
pub fn need_of(words: &[u8], place: usize) -> Result<(i32, &[u8]), LineFault>
    ensures { Gives (λ x. (x.0, words_of x.1.now)) result (need_wanted place (words_of words.now)) }
{
    let (need, words) = number_in(words, -i64::from(MAX_AMOUNT), i64::from(MAX_AMOUNT))?;
    fault_if(Kind::MainNegative, place < 2 && need < 0)?;
    Ok((need as i32, words))
}

/// Whether a number is above the last one, if there is one.
pub fn is_above(last: Option<u32>, number: u32) -> bool
    ensures { result ≡ is_above last number }
{
    match last {
        None => true,
        Some(last) => last < number,
    }
}
