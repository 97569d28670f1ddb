ghost use Rattle.std.specs.Prelude.{◌≡◌, ◌<◌, ◌↔◌, IsTrue, Some, IfSome, [], length, map, codes, string_bytes, slice_index_or};
ghost use Rattle.command_words.specs.declared.command.Command.{Command as CommandOf};
ghost use Rattle.command_words.specs.Commands.{Takes};
ghost use Rattle.command_words.specs.Settings.{MatchLone};

use crate::settings::limits_from;
use solve_run::Limits;

/// The commands of the program.
#[derive(Clone, Copy, Debug, PartialEq, Eq)]
pub enum Command {
    /// `solve`: a plan of least cost with its certificate, within limits.
    Solve(Limits),
    /// `print`: the printed text of a model.
    Print,
    /// `eval`: the cost of a plan, or its first fault.
    Eval,
    /// `check`: whether a certificate proves its claim, or its first fault.
    Check,
}

/// The command that a word names alone.
fn lone_command(word: &str) -> Option<Command>
    ensures { MatchLone word.now result }
{
    match word {
        "print" => Some(Command::Print),
        "eval" => Some(Command::Eval),
        "check" => Some(Command::Check),
        _ => None,
    }
}

/// The first of the words.
fn first_word(words: &[String]) -> &str
    requires { 0 < length words.now }
    ensures { result.now ≡ slice_index_or (map string_bytes words.now) 0 [] }
{
    words[0].as_str()
}

fn is_solve(word: &str) -> bool
    ensures { IsTrue result ↔ (word.now ≡ codes "solve") }
{
    word == "solve"
}

/// The command that the words name, and for `solve` its limits, each of which is the default where no option gives it.
pub fn command_of(words: &[String]) -> Option<Command>
    ensures command { IfSome result (Takes (map string_bytes words.now)) }
    ensures only { (other : CommandOf) → Takes (map string_bytes words.now) other → result ≡ Some other }
{
    if words.is_empty() {
        return None;
    }
    let word = first_word(words);
    if is_solve(word) {
        return Some(Command::Solve(limits_from(words)?));
    }
    if words.len() > 1 {
        return None;
    }
    lone_command(word)
}
