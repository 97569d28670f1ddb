ghost use Rattle.std.specs.Prelude.{◌≡◌, ◌<◌, ◌≤◌, ◌++◌, ◌∷◌, [], All, false, IfOk};
ghost use Rattle.vrp_lex.specs.Text.{words_of};
ghost use Rattle.line_text.specs.Gives.{Gives, IsShorter};
ghost use Rattle.line_text.specs.Words.{and_then, give};
ghost use Rattle.model_text.specs.LineWords.{is_above};
ghost use Rattle.certificate.specs.SetWords.{set_wanted, set_with, sets_wanted};
ghost use Rattle.certificate.specs.LabelWords.{ends_memory, memory_wanted};

use line_text::{ItemReader, Kind, LineFault, fault_if, items, known_below};
use path_graph::{MAX_SETS, SetBits};
use std::alloc::Global;
use vrp_lex::split_word;

/// Whether a number is above the last one, if there is one.
pub fn is_above(last: Option<u32>, number: u32) -> bool
    ensures { result ≡ is_above last number }
{
    match last {
        None => true,
        Some(last) => last < number,
    }
}

/// A packing set, above those before it.
fn set_of<'a>(words: &'a [u8], sets: u16, before: &[u32]) -> Result<(u32, &'a [u8]), LineFault>
    ensures gives { Gives (λ x. (x.0, words_of x.1.now)) result
        (set_wanted sets before.now (words_of words.now)) }
    ensures shorter { IfOk result (λ x. IsShorter words.now x.1.now) }
    ensures known { IfOk result (λ x. x.0 < sets) }
{
    let (set, words) = known_below(words, u32::from(sets))?;
    fault_if(Kind::Order, !is_above(before.last().copied(), set))?;
    Ok((set, words))
}

/// Packing sets to the end of the line, or to the word `s`.
#[derive(Drop)]
struct Sets {
    sets: u16,
}

/// The packing sets of a memory, which the word `s` ends.
#[derive(Drop)]
struct MemorySets {
    sets: u16,
}

impl ItemReader for Sets {
    type Item = u32;

    ghost stops = { λ _. false };

    ghost wanted = { λ r. set_wanted r.sets };

    ghost sound = { λ r sets. (r.sets ≤ 512) × All (λ s. s < 512) sets };

    fn stops_at(&self, _word: &[u8]) -> bool {
        false
    }

    fn take<'a>(&mut self, before: &[u32], words: &'a [u8]) -> Result<(u32, &'a [u8]), LineFault> {
        set_of(words, self.sets, before)
    }
}

impl ItemReader for MemorySets {
    type Item = u32;

    ghost stops = { ends_memory };

    ghost wanted = { λ r. set_wanted r.sets };

    ghost sound = { λ r sets. (r.sets ≤ 512) × All (λ s. s < 512) sets };

    fn stops_at(&self, word: &[u8]) -> bool {
        word == b"s".as_slice()
    }

    fn take<'a>(&mut self, before: &[u32], words: &'a [u8]) -> Result<(u32, &'a [u8]), LineFault> {
        set_of(words, self.sets, before)
    }
}

/// The set of these members.
fn bits_of(sets: &[u32]) -> SetBits
    requires { All (λ s. s < MAX_SETS) sets.now }
    ensures { result ≡ set_with sets.now }
{
    let mut bits = SetBits::empty();
    for set in sets {
        bits = bits.with(*set as u16);
    }
    bits
}

/// Packing sets, which ascend, to the end of the line.
pub fn sets_of(alloc: Global, words: &[u8], sets: u16) -> Result<(SetBits, &[u8]), LineFault>
    requires { sets ≤ MAX_SETS }
    ensures { Gives (λ x. (x.0, words_of x.1.now)) result (sets_wanted sets (words_of words.now)) }
{
    let (members, rest) = items(&mut Sets { sets }, alloc, words)?;
    Ok((bits_of(members.as_slice()), rest))
}

/// `m SET ..` of a memory, where it is not empty.
pub fn memory_of(alloc: Global, words: &[u8], sets: u16) -> Result<(SetBits, &[u8]), LineFault>
    requires { sets ≤ MAX_SETS }
    ensures { Gives (λ x. (x.0, words_of x.1.now)) result
        (and_then (memory_wanted sets (words_of words.now)) (λ memory. give (set_with memory))) }
{
    let Some((first, behind)) = split_word(words) else {
        return Ok((bits_of(&[]), words));
    };
    if first != b"m".as_slice() {
        return Ok((bits_of(&[]), words));
    }
    let (members, rest) = items(&mut MemorySets { sets }, alloc, behind)?;
    fault_if(Kind::Word, members.is_empty())?;
    Ok((bits_of(members.as_slice()), rest))
}
