ghost use Rattle.std.specs.Prelude.{◌≡◌, ◌<◌, ◌≤◌, ◌≤ℤ◌, ◌^◌, pos, true, false, ℕ, List, OnOk, IfOk, IfErr};
ghost use Rattle.vrp_lex.specs.Text.{number_of};
ghost use Rattle.route_texts.specs.Words.{Words, words_in, are_some_words, word, limited, number_in, natural_in};
ghost use Rattle.route_texts.specs.Gives.{Gives, IsWithinEnds};

use crate::fault::{LineFault, RouteKind};
use crate::words::split_word;
use vrp_lex::{Amount, number};

/// A fault of this kind where the test holds.
pub fn fault_if(kind: RouteKind, test: bool) -> Result<(), LineFault>
    ensures passes { OnOk result (test ≡ false) }
    ensures fails { IfErr result (λ e. (test ≡ true) × (e ≡ LineFault.Fault kind)) }
{
    if test {
        return Err(LineFault::Fault(kind));
    }
    Ok(())
}

/// Whether a word is left.
pub fn has_word(words: &[u8]) -> bool
    ensures { result ≡ are_some_words (words_in words.now) }
{
    split_word(words).is_some()
}

/// The next word, and the bytes behind it.
pub fn word(words: &[u8]) -> Result<(&[u8], &[u8]), LineFault>
    ensures { Gives (λ x. (x.0.now, words_in x.1.now)) result (word (words_in words.now)) }
{
    match split_word(words) {
        None => Err(LineFault::Fault(RouteKind::Word)),
        Some(parts) => Ok(parts),
    }
}

/// A word that must be a number within limits.
pub fn limited(word: &[u8], low: i32, high: i32) -> Result<i32, LineFault>
    ensures gives { (words : Words) → Gives (λ z. (z, words)) result (limited low high (number_of word.now) words) }
    ensures within { IfOk result (IsWithinEnds low high) }
{
    match number(word) {
        Amount::Not => Err(LineFault::Fault(RouteKind::Number)),
        Amount::Big => Err(LineFault::Fault(RouteKind::Range)),
        Amount::Value(value) => {
            if value < i128::from(low) || value > i128::from(high) {
                return Err(LineFault::Fault(RouteKind::Range));
            }
            Ok(value as i32)
        }
    }
}

/// The next word as a number within limits.
pub fn number_in(words: &[u8], low: i32, high: i32) -> Result<(i32, &[u8]), LineFault>
    ensures gives { Gives (λ x. (x.0, words_in x.1.now)) result (number_in low high (words_in words.now)) }
    ensures within { IfOk result (λ x. IsWithinEnds low high x.0) }
{
    let (word, words) = word(words)?;
    let z = limited(word, low, high)?;
    Ok((z, words))
}

/// The next word as a number within limits that are not negative.
pub fn natural_in(words: &[u8], low: u32, high: u32) -> Result<(u32, &[u8]), LineFault>
    requires low { low < 2 ^ 31 }
    requires high { high < 2 ^ 31 }
    ensures gives { Gives (λ x. (x.0, words_in x.1.now)) result (natural_in low high (words_in words.now)) }
    ensures within { IfOk result (λ x. (low ≤ x.0) × (x.0 ≤ high)) }
{
    let (z, words) = number_in(words, low as i32, high as i32)?;
    Ok((z as u32, words))
}
