ghost use Rattle.std.specs.Prelude.{◌≡◌, ◌<◌, ◌≤◌, ◌++◌, ◌∷◌, [], length, map, drop, string_bytes, slice_index_or, IsTrue, ◌↔◌};
ghost use Rattle.command_words.specs.Commands.{most_of, name_of};
ghost use Rattle.command_words.specs.Options.{IsNumberRead, MatchBegins, MatchBeginsBy, MatchJoined, MatchNumber};

use vrp_lex::{Amount, number};

/// The limits of a search without options.
pub const DEFAULT_WORKERS: u32 = 1;

pub const DEFAULT_LABELS: u32 = 100_000;

pub const DEFAULT_NODES: u32 = 100;

/// The greatest number of each option. One thread works so far.
pub const MOST_WORKERS: u32 = 1;

pub const MOST_LABELS: u32 = 16_777_216;

pub const MOST_NODES: u32 = 1_000_000;

/// The most digits of a number.
pub const MOST_DIGITS: usize = 10;

/// An option of `solve`.
#[derive(Clone, Copy, Debug, PartialEq, Eq)]
pub(crate) enum Choice {
    Workers,
    Labels,
    Nodes,
}

/// An option with its number, and how many words it takes.
#[derive(Clone, Copy, Debug)]
pub(crate) struct Named {
    pub choice: Choice,
    pub number: u32,
    pub words: usize,
}

/// What the options said so far.
#[derive(Clone, Copy, Debug)]
pub(crate) struct Draft {
    pub workers: Option<u32>,
    pub labels: Option<u32>,
    pub nodes: Option<u32>,
}

/// The word of an option.
fn name(choice: Choice) -> &'static str
    ensures { result.now ≡ name_of choice }
{
    match choice {
        Choice::Workers => "--workers",
        Choice::Labels => "--labels",
        Choice::Nodes => "--nodes",
    }
}

/// Whether a word is that of an option.
fn is_name(choice: Choice, word: &[u8]) -> bool
    ensures { IsTrue result ↔ (word.now ≡ name_of choice) }
{
    word == name(choice).as_bytes()
}

/// The greatest number of an option.
fn most(choice: Choice) -> u32
    ensures { result ≡ most_of choice }
{
    match choice {
        Choice::Workers => MOST_WORKERS,
        Choice::Labels => MOST_LABELS,
        Choice::Nodes => MOST_NODES,
    }
}

/// The number of an option, if a word is one that it takes.
fn number_for(choice: Choice, word: &[u8]) -> Option<u32>
    ensures { IsNumberRead choice word.now result }
{
    if word.len() > MOST_DIGITS || word.is_empty() || word[0] == b'-' {
        return None;
    }
    match number(word) {
        Amount::Value(value) if value >= 1 && value <= i128::from(most(choice)) => Some(
            value as u32,
        ),
        _ => None,
    }
}

/// The bytes of the word at a place.
fn word_at(words: &[String], at: usize) -> &[u8]
    requires { at < length words.now }
    ensures { result.now ≡ slice_index_or (map string_bytes words.now) at [] }
{
    words[at].as_bytes()
}

/// The number of an option in the word at a place, where there is one: the option takes two words.
fn number_at(choice: Choice, words: &[String], at: usize) -> Option<Named>
    ensures { MatchNumber choice (drop at (map string_bytes words.now)) result }
{
    if at >= words.len() {
        return None;
    }
    let number = number_for(choice, word_at(words, at))?;
    Some(Named {
        choice,
        number,
        words: 2,
    })
}

/// An option with its number in one word.
fn joined(choice: Choice, word: &[u8]) -> Option<Named>
    ensures { MatchJoined choice word.now result }
{
    let name = name(choice).as_bytes();
    if word.len() <= name.len() || &word[..name.len()] != name || word[name.len()] != b'=' {
        return None;
    }
    let number = number_for(choice, &word[name.len() + 1..])?;
    Some(Named {
        choice,
        number,
        words: 1,
    })
}

/// The option that begins at a place of the words, if it is this one.
fn named_by(choice: Choice, words: &[String], at: usize) -> Option<Named>
    requires { at < length words.now }
    ensures { MatchBeginsBy choice (drop at (map string_bytes words.now)) result }
{
    let word = word_at(words, at);
    if is_name(choice, word) {
        return number_at(choice, words, at + 1);
    }
    joined(choice, word)
}

/// The option that begins at a place of the words.
pub(crate) fn named_at(words: &[String], at: usize) -> Option<Named>
    requires { at < length words.now }
    ensures { MatchBegins (drop at (map string_bytes words.now)) result }
{
    if let Some(named) = named_by(Choice::Workers, words, at) {
        return Some(named);
    }
    if let Some(named) = named_by(Choice::Labels, words, at) {
        return Some(named);
    }
    named_by(Choice::Nodes, words, at)
}
