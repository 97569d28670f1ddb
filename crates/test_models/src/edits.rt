//! Texts that are made of others by edits, of lines, or of pieces, each told in a row of a table.

use std::alloc::Global;
use std::test::Fail;

/// Which lines of a text are replaced, counted from 1, and by which. Lines stand between ` / `; no word is no line.
/// Where the first is one more than the last, the lines are put before the first and none is left out.
#[derive(Clone, Copy)]
pub struct Edit<'a> {
    pub first: u32,
    pub last: u32,
    pub lines: &'a str,
}

/// The edit and what is expected of the text, of a row as `16 16 | arc 0 1 -1 0 | 16 MainNegative`.
pub fn edit_of(row: &str) -> Result<(Edit<'_>, &str), Fail> {
    let (places, rest) = row.split_once(" | ").ok_or("a row without lines")?;
    let (lines, expected) = rest.split_once(" | ").ok_or("a row that expects nothing")?;
    let (first, last) = places.split_once(' ').ok_or("a row without a last line")?;
    let edit = Edit {
        first: first.parse::<u32>()?,
        last: last.parse::<u32>()?,
        lines,
    };
    Ok((edit, expected))
}

/// Puts lines that stand between ` / `, each with its LF.
fn put_lines(text: &mut Vec<u8>, lines: &str) -> Result<(), Fail> {
    if lines.is_empty() {
        return Ok(());
    }
    for line in lines.split(" / ") {
        text.extend_from_slice(line.as_bytes())?;
        text.push(b'\n')?;
    }
    Ok(())
}

/// The text of lines that stand between ` / `.
pub fn lines_text(alloc: Global, lines: &str) -> Result<Vec<u8>, Fail> {
    let mut text = Vec::new(alloc);
    put_lines(&mut text, lines)?;
    Ok(text)
}

/// The text after the edit.
pub fn edited(alloc: Global, text: &str, edit: Edit<'_>) -> Result<Vec<u8>, Fail> {
    let mut out = Vec::new(alloc);
    let mut number: u32 = 1;
    for line in text.lines() {
        if number == edit.first {
            put_lines(&mut out, edit.lines)?;
        }
        if number < edit.first || number > edit.last {
            out.extend_from_slice(line.as_bytes())?;
            out.push(b'\n')?;
        }
        number = number.saturating_add(1);
    }
    if number <= edit.first {
        put_lines(&mut out, edit.lines)?;
    }
    Ok(out)
}

/// Puts a piece, in which `/` stands for LF.
fn put_piece(text: &mut Vec<u8>, piece: &str) -> Result<(), Fail> {
    for byte in piece.as_bytes() {
        text.push(if *byte == b'/' { b'\n' } else { *byte })?;
    }
    Ok(())
}

/// The text of a row of pieces, each once, or as often as a number before it says, as `vrpmodel 1/ | 3 times var 0 1 0/ |
/// end/`, in which `/` stands for LF.
pub fn joined(alloc: Global, row: &str) -> Result<Vec<u8>, Fail> {
    let mut text = Vec::new(alloc);
    for piece in row.split(" | ") {
        let (times, piece) = match piece.split_once(" times ") {
            Some((times, piece)) => (times.parse::<u32>()?, piece),
            None => (1, piece),
        };
        let mut bytes = Vec::new(alloc);
        put_piece(&mut bytes, piece)?;
        for _ in 0..times {
            text.extend_from_slice(bytes.as_slice())?;
        }
    }
    Ok(text)
}
