//! Runs of the program in memory.

ghost use Rattle.std.specs.Prelude.{◌<◌};

use std::alloc::Global;
use std::process::Abort;
use std::test::Fail;
use std::thread::Threads;
use test_models::edits::{edit_of, edited, joined, lines_text};
use vrp_cli::run_vrp;
use vrp_io::{MemSink, MemSource, NoGate};

/// The words of a text.
pub fn words_of(alloc: Global, text: &str) -> Result<Vec<String>, Fail> {
    let mut words = Vec::new(alloc);
    for word in text.split_whitespace() {
        words.push(String::from_str(alloc, word)?)?;
    }
    Ok(words)
}

/// The most bytes that a run of the tests writes.
const MOST_WRITTEN: u32 = 1_000_000;

/// What a run ended with, and what it wrote.
#[derive(Drop)]
pub struct Ended {
    pub number: u8,
    pub sink: MemSink,
}

/// How the source and the sink of a run behave: the most that they move at once, and what fails.
#[derive(Clone, Copy)]
pub struct Streams<'a> {
    pub read_piece: u32,
    pub failing_reads: &'a [u32],
    pub write_piece: u32,
    pub failing_writes: &'a [u32],
    ghost reads: { 0 < read_piece },
    ghost writes: { 0 < write_piece },
}

/// A run over an input in memory.
pub fn run<R: Threads + Sync>(
    rt: &R,
    alloc: Global,
    words: &str,
    input: &[u8],
    streams: Streams<'_>,
) -> Result<Ended, Fail> {
    let words = words_of(alloc, words)?;
    let mut source = MemSource::new(alloc, input, streams.read_piece, streams.failing_reads)?;
    let mut sink = MemSink::new(
        alloc,
        MOST_WRITTEN,
        streams.write_piece,
        streams.failing_writes,
    )?;
    let status = run_vrp(rt, alloc, words.as_slice(), &mut source, &mut sink, &NoGate);
    Ok(Ended {
        number: status.number,
        sink,
    })
}

/// Asserts that a run ends with this status and writes this text.
pub fn answers<R: Threads + Sync + Abort>(
    rt: &R,
    alloc: Global,
    words: &str,
    input: &[u8],
    status: u8,
    text: &[u8],
    row: &str,
) -> Result<(), Fail> {
    let streams = Streams {
        read_piece: 1_000,
        failing_reads: &[],
        write_piece: 1_000,
        failing_writes: &[],
    };
    let ended = run(rt, alloc, words, input, streams)?;
    assert_eq!(rt; ended.number, status, "{row}");
    assert_eq!(rt; ended.sink.written(), text, "{row}");
    Ok(())
}

/// Asserts that a run of `solve` ends with this status; that what it writes begins with this text; and that, where it is a
/// certificate, `check` finds behind the same input that it proves what its first line says.
pub fn solves<R: Threads + Sync + Abort>(
    rt: &R,
    alloc: Global,
    words: &str,
    input: &[u8],
    status: u8,
    text: &[u8],
    row: &str,
) -> Result<(), Fail> {
    if status > 1 {
        return answers(rt, alloc, words, input, status, text, row);
    }
    let streams = Streams {
        read_piece: 1_000,
        failing_reads: &[],
        write_piece: 1_000,
        failing_writes: &[],
    };
    let ended = run(rt, alloc, words, input, streams)?;
    assert_eq!(rt; ended.number, status, "{row}");
    let written = ended.sink.written();
    assert!(rt; written.starts_with(text), "{row}");
    let mut proved = Vec::from_slice(alloc, input)?;
    proved.push(b'\n')?;
    proved.extend_from_slice(written)?;
    let claim = text.split(|byte| *byte == b'\n').next().unwrap_or(text);
    let mut accepted = Vec::from_slice(alloc, b"accepted ")?;
    accepted.extend_from_slice(claim)?;
    accepted.push(b'\n')?;
    answers(
        rt,
        alloc,
        "check",
        proved.as_slice(),
        0,
        accepted.as_slice(),
        row,
    )
}

/// Asserts what a run over an input ends with, as `3 | refused model 22 12 FreeCycle`: the status, and the lines.
fn ends_as<R: Threads + Sync + Abort>(
    rt: &R,
    alloc: Global,
    words: &str,
    input: &[u8],
    expected: &str,
    row: &str,
) -> Result<(), Fail> {
    let (status, lines) = expected.split_once(" | ").ok_or("a row without a status")?;
    let text = lines_text(alloc, lines)?;
    let status = status.parse::<u8>()?;
    if words.starts_with("solve") {
        return solves(rt, alloc, words, input, status, text.as_slice(), row);
    }
    answers(rt, alloc, words, input, status, text.as_slice(), row)
}

/// Asserts rows of edits of a text, as `16 16 | arc 0 1 -1 0 | 3 | refused model 16 11 MainNegative`: the first and the
/// last line that are replaced, by what, the status, and the lines that are written.
pub fn edits_answer<R: Threads + Sync + Abort>(
    rt: &R,
    alloc: Global,
    words: &str,
    text: &str,
    rows: &str,
) -> Result<(), Fail> {
    for row in rows.lines() {
        let (edit, expected) = edit_of(row)?;
        let input = edited(alloc, text, edit)?;
        ends_as(rt, alloc, words, input.as_slice(), expected, row)?;
    }
    Ok(())
}

/// Asserts rows of whole inputs, as `vrpmodel 1/end/ | 0 | optimal 0`: the input, in which `/` stands for LF, the status,
/// and the lines that are written.
pub fn inputs_answer<R: Threads + Sync + Abort>(
    rt: &R,
    alloc: Global,
    words: &str,
    rows: &str,
) -> Result<(), Fail> {
    for row in rows.lines() {
        let (input, expected) = row.split_once(" | ").ok_or("a row without a status")?;
        let input = joined(alloc, input)?;
        ends_as(rt, alloc, words, input.as_slice(), expected, row)?;
    }
    Ok(())
}
