ghost use Rattle.std.specs.Prelude.{◌≡◌, ◌==◌, ◌+◌, ◌<◌, ◌≤◌, ◌-◌, ◌^◌, OnOk, IfOk, length, count_by};
ghost use Rattle.vrp_lex.specs.Text.{lines_of, words_of};
ghost use Rattle.vrp_lex.specs.Places.{IsInText, bytes_of};
ghost use Rattle.line_text.specs.Reading.{Reading, words_read, line_read, at_line, lines_read, text_read};
ghost use Rattle.line_text.specs.Gives.{Gives, GivesText};

use crate::fault::{Kind, LineFault, ReadError, TextFault};
use crate::word_reader::{fault_if, has_word};
use std::alloc::Global;
use vrp_lex::{Line, bad_byte, next_line};

/// What the lines of a text say, one after the other.
pub trait LineReader: Drop + Sized {
    type Told;

    /// What each line says. No line changes it.
    ghost reading: { Self → Reading Self.Told };

    /// What was said so far.
    ghost told: { Self → Self.Told };

    /// What holds of the sums that are kept beside it.
    ghost sound: { Self → Type 0 };

    /// Whether the end is read.
    fn is_ended(&self) -> bool
        ensures { result ≡ (reading self.now).is_ended (told self.now) };

    /// The words of a line before the end; the bytes behind those that were taken.
    fn take_line<'a>(
        &mut self,
        alloc: Global,
        number: u32,
        words: &'a [u8],
    ) -> Result<&'a [u8], LineFault>
        requires { sound self.old }
        ensures gives { Gives (λ rest. (told self.new, words_of rest.now)) result
            ((reading self.old).line (told self.old) number (words_of words.now)) }
        ensures same { OnOk result (reading self.new ≡ reading self.old) }
        ensures sound { OnOk result (sound self.new) };
}

/// How many LF bytes a text has.
fn lf_count(text: &[u8]) -> usize
    ensures { result ≡ count_by (λ b. b == 10) text.now }
{
    text.iter().filter(|byte| **byte == b'\n').count()
}

/// The words of a line.
fn take_words<R: LineReader>(
    reader: &mut R,
    alloc: Global,
    number: u32,
    words: &[u8],
) -> Result<(), LineFault>
    requires { R.sound reader.old }
    ensures gives { Gives (λ _. R.told reader.new) result
        (words_read (R.reading reader.old) (R.told reader.old) number (words_of words.now)) }
    ensures same { OnOk result (R.reading reader.new ≡ R.reading reader.old) }
    ensures sound { OnOk result (R.sound reader.new) }
{
    if !has_word(words) {
        return Ok(());
    }
    fault_if(Kind::AfterEnd, reader.is_ended())?;
    let rest = reader.take_line(alloc, number, words)?;
    fault_if(Kind::Word, has_word(rest))
}

/// A line of a text.
fn take_line<R: LineReader>(
    reader: &mut R,
    alloc: Global,
    text: &[u8],
    line: &Line,
) -> Result<(), LineFault>
    requires line { IsInText text.now line.now }
    requires sound { R.sound reader.old }
    ensures gives { Gives (λ _. R.told reader.new) result
        (line_read (R.reading reader.old) (R.told reader.old) line.now.number (bytes_of text.now line.now)) }
    ensures same { OnOk result (R.reading reader.new ≡ R.reading reader.old) }
    ensures sound { OnOk result (R.sound reader.new) }
{
    fault_if(Kind::Byte, bad_byte(text, line))?;
    let words = &text[line.from as usize..line.to as usize];
    take_words(reader, alloc, line.number, words)
}

/// A line of a text; a fault has its number.
fn take_numbered<R: LineReader>(
    reader: &mut R,
    alloc: Global,
    text: &[u8],
    line: &Line,
) -> Result<(), ReadError>
    requires line { IsInText text.now line.now }
    requires sound { R.sound reader.old }
    ensures gives { GivesText (λ _. R.told reader.new) result
        (at_line line.now.number
        (line_read (R.reading reader.old) (R.told reader.old) line.now.number (bytes_of text.now line.now))) }
    ensures same { OnOk result (R.reading reader.new ≡ R.reading reader.old) }
    ensures sound { OnOk result (R.sound reader.new) }
{
    match take_line(reader, alloc, text, line) {
        Ok(()) => Ok(()),
        Err(LineFault::Memory) => Err(ReadError::Memory),
        Err(LineFault::Fault(kind)) => Err(ReadError::Text(TextFault {
            line: line.number,
            kind,
        })),
    }
}

/// What all lines of a text say to a reader of which no line is read.
fn read_lines<R: LineReader>(fresh: R, alloc: Global, text: &[u8]) -> Result<R, ReadError>
    requires short { length text.now < 2 ^ 32 - 1 }
    requires empty { R.told fresh ≡ (R.reading fresh).empty }
    requires sound { R.sound fresh }
    ensures gives { GivesText R.told result
        (lines_read (R.reading fresh) (R.reading fresh).empty 1 (lines_of text.now)) }
    ensures same { IfOk result (λ read. R.reading read ≡ R.reading fresh) }
    ensures sound { IfOk result R.sound }
{
    let mut reader = fresh;
    let mut at = 0;
    let mut number = 1;
    while let Some(line) = next_line(text, at, number) {
        take_numbered(&mut reader, alloc, text, &line)?;
        at = line.next;
        number += 1;
    }
    Ok(reader)
}

/// What a text says to a reader of which no line is read, or its first error: that of the first faulty line; then the
/// missing end.
///
/// Lines are read one after the other, each in one pass over its words.
pub fn read_text<R: LineReader>(reader: R, alloc: Global, text: &[u8]) -> Result<R, ReadError>
    requires short { length text.now < 2 ^ 32 - 1 }
    requires empty { R.told reader ≡ (R.reading reader).empty }
    requires sound { R.sound reader }
    ensures gives { GivesText R.told result (text_read (R.reading reader) text.now) }
    ensures sound { IfOk result R.sound }
{
    let reader = read_lines(reader, alloc, text)?;
    if reader.is_ended() {
        return Ok(reader);
    }
    Err(ReadError::Text(TextFault {
        line: 1 + lf_count(text) as u32,
        kind: Kind::EndMissing,
    }))
}
