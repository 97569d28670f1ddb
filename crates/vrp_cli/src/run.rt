ghost use Rattle.std.specs.Prelude.{◌≡◌, ◌+◌, ◌-◌, ◌^◌, ◌<◌, ◌⊎◌, ℕ, List, IfSome, IfOk, map, string_bytes, codes, length};
ghost use Rattle.std.specs.Io.KnownBytes.{Appends};
ghost use Rattle.vrp_io.specs.Counts.{Rose};
ghost use Rattle.vrp_io.specs.Bytes.{TookExactly};
ghost use Rattle.solve_run.specs.declared.outcome.Limits.{Limits};
ghost use Rattle.command_words.specs.declared.command.Command.{Command};
ghost use Rattle.command_words.specs.Commands.{Takes, AreTaken};
ghost use Rattle.vrp_cli.specs.Commands.{model_part};
ghost use Rattle.vrp_cli.specs.Headline.{Answers, Runs, stream};
ghost use Rattle.vrp_cli.specs.Endings.{WroteLeast, WroteNone, WroteLabelLimit, WroteNodeLimit, WroteModel};
ghost use Rattle.vrp_cli.specs.Endings.{WroteCost, WroteClaim, WroteFault, WrotePlanFault};
ghost use Rattle.vrp_cli.specs.Endings.{WroteCertificateFault, IsDue, IsKeptBy};
ghost use Rattle.vrp_cli.specs.Answer.{status_of, text_of, AnswersInput, LimitsFitIn};

use crate::answer::{Answer, status_alone};
use crate::check::check;
use crate::eval::eval;
use crate::limits::MAX_INPUT;
use crate::print::print;
use crate::solve::solve;
use crate::status::Status;
use command_words::{Command, command_of};
use path_graph::NoMemory;
use std::alloc::Global;
use std::thread::Threads;
use vrp_io::{Gate, ReadFault, Sink, Source, read_all, write_all};

/// Runs the program: reads the words, then the whole input, then works, and writes the whole answer.
///
/// `words` are those after the program's name. Words that are not one of the commands are refused before anything is
/// read. No call under it waits, so it returns for every input.
pub fn run_vrp<R: Threads + Sync, S: Source, K: Sink, G: Gate + Sync>(
    rt: &R,
    alloc: Global,
    words: &[String],
    source: &mut S,
    sink: &mut K,
    gate: &G,
) -> Status
    // The whole story: an answer to the words and the input, and how it was told.
    ensures run { Runs (map string_bytes words.now)
        (stream (S.left source.old) (S.faults source.old) S.answers_each_fault)
        (stream (S.left source.new) (S.faults source.new) S.answers_each_fault)
        (stream (K.written sink.old) (K.faults sink.old) K.answers_each_fault)
        (stream (K.written sink.new) (K.faults sink.new) K.answers_each_fault)
        result }

    // What each status says.
    ensures optimal { (limits : Limits) → Takes (map string_bytes words.now) (Command.Solve limits)
        → result.number ≡ 0
        → IfSome (S.left source.old) (WroteLeast (K.written sink.old) (K.written sink.new)) }
    ensures print { Takes (map string_bytes words.now) Command.Print → result.number ≡ 0
        → IfSome (S.left source.old) (WroteModel (K.written sink.old) (K.written sink.new)) }
    ensures fine { Takes (map string_bytes words.now) Command.Eval → result.number ≡ 0
        → IfSome (S.left source.old) (WroteCost (K.written sink.old) (K.written sink.new)) }
    ensures accepted { Takes (map string_bytes words.now) Command.Check → result.number ≡ 0
        → IfSome (S.left source.old) (WroteClaim (K.written sink.old) (K.written sink.new)) }
    ensures infeasible { result.number ≡ 1 → (limits : Limits)
        × Takes (map string_bytes words.now) (Command.Solve limits)
        × IfSome (S.left source.old) (WroteNone (K.written sink.old) (K.written sink.new)) }
    ensures labels { result.number ≡ 5 → (limits : Limits)
        × Takes (map string_bytes words.now) (Command.Solve limits)
        × IfSome (S.left source.old)
        (WroteLabelLimit limits result.kept (K.written sink.old) (K.written sink.new)) }
    ensures nodes { result.number ≡ 6 → (limits : Limits)
        × Takes (map string_bytes words.now) (Command.Solve limits)
        × IfSome (S.left source.old)
        (WroteNodeLimit limits result.kept (K.written sink.old) (K.written sink.new)) }
    ensures kept { IsKeptBy result.number result.kept }
    ensures words { result.number ≡ 2 → AreTaken (map string_bytes words.now) → ⊥ }
    ensures model { result.number ≡ 3 → (command : Command)
        × Takes (map string_bytes words.now) command
        × IfSome (S.left source.old) (λ input.
        WroteFault (K.written sink.old) (K.written sink.new) (model_part command input)) }
    ensures refused { result.number ≡ 4 → (Takes (map string_bytes words.now) Command.Eval
        × IfSome (S.left source.old) (WrotePlanFault (K.written sink.old) (K.written sink.new)))
        ⊎ (Takes (map string_bytes words.now) Command.Check
        × IfSome (S.left source.old) (WroteCertificateFault (K.written sink.old) (K.written sink.new))) }
    ensures read { result.number ≡ 7 → Rose (S.faults source.old) (S.faults source.new) }
    ensures write { result.number ≡ 8 → Rose (K.faults sink.old) (K.faults sink.new) }
    ensures long { result.number ≡ 10 →
        TookExactly (S.left source.old) (S.left source.new) (MAX_INPUT + 1) }

    // When each must come, where no fault rises and memory is not wanting.
    ensures unread { (AreTaken (map string_bytes words.now) → ⊥) →
        (source.new ≡ source.old) × ((result.number ≡ 2) ⊎ (result.number ≡ 8)) }
    ensures due { (command : Command) → Takes (map string_bytes words.now) command
        → (Rose (S.faults source.old) (S.faults source.new) → ⊥)
        → (Rose (K.faults sink.old) (K.faults sink.new) → ⊥)
        → (result.number ≡ 9) ⊎ IfSome (S.left source.old) (IsDue command result.number) }
{
    answer_words(rt, alloc, words, source, sink, gate)
}

/// Finds the answer to the words and the input, and writes it.
fn answer_words<R: Threads + Sync, S: Source, K: Sink, G: Gate + Sync>(
    rt: &R,
    alloc: Global,
    words: &[String],
    source: &mut S,
    sink: &mut K,
    gate: &G,
) -> Status
    ensures run { Runs (map string_bytes words.now)
        (stream (S.left source.old) (S.faults source.old) S.answers_each_fault)
        (stream (S.left source.new) (S.faults source.new) S.answers_each_fault)
        (stream (K.written sink.old) (K.faults sink.old) K.answers_each_fault)
        (stream (K.written sink.new) (K.faults sink.new) K.answers_each_fault)
        result }
    ensures unread { (AreTaken (map string_bytes words.now) → ⊥) → source.new ≡ source.old }
{
    let answer = decide(rt, alloc, words, source, gate);
    match write_all(sink, answer.text()) {
        Ok(()) => answer.status(),
        Err(_) => status_alone(8),
    }
}

/// The answer to the words and the input.
fn decide<R: Threads + Sync, S: Source, G: Gate + Sync>(
    rt: &R,
    alloc: Global,
    words: &[String],
    source: &mut S,
    gate: &G,
) -> Answer
    ensures answers { Answers (map string_bytes words.now)
        (stream (S.left source.old) (S.faults source.old) S.answers_each_fault)
        (stream (S.left source.new) (S.faults source.new) S.answers_each_fault)
        (status_of result) (text_of result) }
    ensures unread { (AreTaken (map string_bytes words.now) → ⊥) → source.new ≡ source.old }
{
    let Some(command) = command_of(words) else {
        return Answer::RefusedWords;
    };
    match read_all(alloc, source, MAX_INPUT) {
        Ok(input) => match answer_input(rt, alloc, command, input.as_slice(), gate) {
            Ok(answer) => answer,
            Err(_) => Answer::OutOfMemory,
        },
        Err(ReadFault::Read) => Answer::FailedRead,
        Err(ReadFault::TooLong) => Answer::TooLong,
        Err(ReadFault::Memory) => Answer::OutOfMemory,
    }
}

/// The answer of a command to an input.
fn answer_input<R: Threads + Sync, G: Gate + Sync>(
    rt: &R,
    alloc: Global,
    command: Command,
    input: &[u8],
    gate: &G,
) -> Result<Answer, NoMemory>
    requires limits { LimitsFitIn command }
    requires few { length input.now < 2 ^ 32 - 1 }
    ensures { IfOk result (AnswersInput command input.now) }
{
    match command {
        Command::Solve(limits) => solve(rt, alloc, &limits, input, gate),
        Command::Print => print(alloc, input),
        Command::Eval => eval(alloc, input),
        Command::Check => check(alloc, input),
    }
}
