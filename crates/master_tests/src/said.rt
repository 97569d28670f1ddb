//! What is said of a linear program in a block: lines that begin with a word, followed by numbers.

use fixed_master::{Column, Entry, Side};
use path_graph::List;
use std::alloc::Global;
use std::test::Fail;

/// The rest of the first line that begins with this word.
pub fn after<'a>(said: &'a str, word: &str) -> Option<&'a str> {
    for line in said.lines() {
        if let Some(rest) = line.strip_prefix(word) {
            return Some(rest);
        }
    }
    None
}

/// The numbers of a line.
pub fn integers(alloc: Global, text: &str) -> Result<Vec<i64>, Fail> {
    let mut integers = Vec::new(alloc);
    for word in text.split_whitespace() {
        integers.push(word.parse::<i64>()?)?;
    }
    Ok(integers)
}

/// An end of a side, open where a minus stands alone.
fn end_of(word: &str) -> Result<Option<i64>, Fail> {
    if word == "-" {
        return Ok(None);
    }
    Ok(Some(word.parse::<i64>()?))
}

/// The sides that are said, from the lines with two ends each.
pub fn sides_of(alloc: Global, said: &str) -> Result<Vec<Side>, Fail> {
    let mut sides = Vec::new(alloc);
    for line in said.lines() {
        if let Some(ends) = line.strip_prefix("side ") {
            let (low, high) = ends.split_once(" ").ok_or("a side without two ends")?;
            sides.push(Side {
                low: end_of(low)?,
                high: end_of(high)?,
            })?;
        }
    }
    Ok(sides)
}

/// A column from its words: a cost, and entries with the row before a colon.
fn column_of(alloc: Global, words: &str) -> Result<Column, Fail> {
    let mut cost = 0;
    let mut entries = List::new(alloc);
    for word in words.split_whitespace() {
        match word.split_once(":") {
            Some((row, value)) => entries.push(Entry {
                row: row.parse::<u32>()?,
                value: value.parse::<i64>()?,
            })?,
            None => cost = word.parse::<i64>()?,
        }
    }
    Ok(Column { cost, entries })
}

/// The columns that are said, a line for each.
pub fn columns_of(alloc: Global, said: &str) -> Result<Vec<Column>, Fail> {
    let mut columns = Vec::new(alloc);
    for line in said.lines() {
        if let Some(words) = line.strip_prefix("column ") {
            columns.push(column_of(alloc, words)?)?;
        }
    }
    Ok(columns)
}

/// The turns that are said, or else enough.
pub fn pivots_of(said: &str) -> Result<u32, Fail> {
    match after(said, "pivots ") {
        Some(word) => Ok(word.parse::<u32>()?),
        None => Ok(1_000),
    }
}
