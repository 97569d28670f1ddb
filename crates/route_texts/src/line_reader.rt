ghost use Rattle.std.specs.Prelude.{◌≡◌, ◌<◌, ◌-◌, ◌^◌, OnOk, IfOk, length, if◌then◌else◌};
ghost use Rattle.route_tasks.specs.Fit.{TaskFits};
ghost use Rattle.route_texts.specs.Reading.{Reading, at_line, text_read};
ghost use Rattle.route_texts.specs.Gives.{Gives, GivesText};

use crate::fault::{LineFault, RouteError, RouteFault};
use route_tasks::RouteTask;
use std::alloc::Global;
use vrp_lex::{Line, next_line};

/// What the lines of a routing text say, one after the other.
pub trait LineReader: Drop + Sized {
    /// What each line says.
    ghost reading: { Reading Self };

    /// What holds of what was said so far.
    ghost sound: { Self → Type 0 };

    /// One more line.
    fn take_line(&mut self, alloc: Global, line: &[u8]) -> Result<(), LineFault>
        requires { sound self.old }
        ensures gives { Gives (λ _. self.new) result (reading.line self.old line.now) }
        ensures sound { OnOk result (sound self.new) };

    /// Whether no further line is read.
    fn ends(line: &[u8]) -> bool
        ensures { result ≡ reading.ends line.now };

    /// The task of all lines.
    fn task(self, alloc: Global) -> Result<RouteTask, LineFault>
        requires { sound self }
        ensures gives { Gives (λ task. task) result (reading.task self) }
        ensures fits { IfOk result TaskFits };
}

/// A line with this number.
fn take_numbered<R: LineReader>(
    reader: &mut R,
    alloc: Global,
    number: u32,
    line: &[u8],
) -> Result<(), RouteError>
    requires { R.sound reader.old }
    ensures gives { GivesText (λ _. reader.new) result
        (at_line number (R.reading.line reader.old line.now)) }
    ensures sound { OnOk result (R.sound reader.new) }
{
    match reader.take_line(alloc, line) {
        Ok(()) => Ok(()),
        Err(LineFault::Memory) => Err(RouteError::Memory),
        Err(LineFault::Fault(kind)) => Err(RouteError::Text(RouteFault { line: number, kind })),
    }
}

/// The task of all lines; what is missing has this number.
fn task_numbered<R: LineReader>(
    reader: R,
    alloc: Global,
    number: u32,
) -> Result<RouteTask, RouteError>
    requires { R.sound reader }
    ensures gives { GivesText (λ task. task) result (at_line number (R.reading.task reader)) }
    ensures fits { IfOk result TaskFits }
{
    match reader.task(alloc) {
        Ok(task) => Ok(task),
        Err(LineFault::Memory) => Err(RouteError::Memory),
        Err(LineFault::Fault(kind)) => Err(RouteError::Text(RouteFault { line: number, kind })),
    }
}

/// Where the next line begins: the end of the text where no further line is read.
fn next_place(text: &[u8], line: &Line, ended: bool) -> u32
    requires { length text.now < 2 ^ 32 - 1 }
    ensures { result ≡ (if ended then length text.now else line.now.next) }
{
    if ended {
        return text.len() as u32;
    }
    line.next
}

/// The task of a text, or its first fault.
///
/// Lines are read one after the other.
pub fn read_lines<R: LineReader>(
    fresh: R,
    alloc: Global,
    text: &[u8],
) -> Result<RouteTask, RouteError>
    requires short { length text.now < 2 ^ 32 - 1 }
    requires empty { fresh ≡ R.reading.empty }
    requires sound { R.sound fresh }
    ensures gives { GivesText (λ task. task) result (text_read R.reading text.now) }
    ensures fits { IfOk result TaskFits }
{
    let mut reader = fresh;
    let mut at = 0;
    let mut number = 1;
    while let Some(line) = next_line(text, at, number) {
        let bytes = &text[line.from as usize..line.to as usize];
        take_numbered(&mut reader, alloc, number, bytes)?;
        at = next_place(text, &line, R::ends(bytes));
        number += 1;
    }
    task_numbered(reader, alloc, number)
}
