//! Labels that are written as words: the vertex, the cost, the values, behind `m` the sets of the memory and behind `s` the
//! states.

use path_graph::{Ends, SetBits, Values};
use route_labels::Label;
use std::process::Abort;
use std::test::Fail;
use test_places::said::sets_of;

/// The parts of a line that stands between ` / `.
pub fn cut_line(line: &str) -> Result<(&str, &str), Fail> {
    Ok(line.split_once(" / ").ok_or("a line that is too short")?)
}

/// The label of words.
pub fn label_of(ends: &Ends, text: &str) -> Result<Label, Fail> {
    let (text, states) = text.split_once(" s ").unwrap_or((text, ""));
    let (text, sets) = text.split_once(" m ").unwrap_or((text, ""));
    let mut words = text.split_whitespace();
    let vertex = words
        .next()
        .ok_or("a label without a vertex")?
        .parse::<u32>()?;
    let cost = words
        .next()
        .ok_or("a label without a cost")?
        .parse::<i64>()?;
    let mut values = Values { at: [0; 6] };
    for (k, word) in words.enumerate() {
        put_value(ends, &mut values, k, word.parse::<i32>()?);
    }
    Ok(Label {
        vertex,
        values,
        memory: sets_of(sets)?,
        states: states_of(states)?,
        cost: i128::from(cost),
    })
}

/// Puts the value with this number among the main and then the secondary ones.
fn put_value(ends: &Ends, values: &mut Values, k: usize, value: i32) {
    let mains = ends.mains as usize;
    if k < mains && k < 2 {
        values.at[k] = value;
    } else if k >= mains && k - mains < 4 {
        values.at[k - mains + 2] = value;
    }
}

/// The states of words, 0 behind them.
fn states_of(text: &str) -> Result<[u8; 64], Fail> {
    let mut states = [0; 64];
    for (i, word) in text.split_whitespace().enumerate() {
        if i < 64 {
            states[i] = word.parse::<u8>()?;
        }
    }
    Ok(states)
}

/// The label of words, or none.
pub fn label_or_none(ends: &Ends, text: &str) -> Result<Option<Label>, Fail> {
    if text == "none" {
        return Ok(None);
    }
    Ok(Some(label_of(ends, text)?))
}

/// A cost, or none.
pub fn cost_or_none(text: &str) -> Result<Option<i128>, Fail> {
    if text == "none" {
        return Ok(None);
    }
    Ok(Some(i128::from(text.parse::<i64>()?)))
}

/// Labels against those of the lines that begin with a word, in any order.
pub fn check_labels<R: Abort>(
    rt: &R,
    ends: &Ends,
    labels: &[Label],
    said: &str,
    word: &str,
) -> Result<(), Fail> {
    let mut count: usize = 0;
    for line in said.lines() {
        if let Some(rest) = line.strip_prefix(word) {
            let expected = label_of(ends, rest)?;
            let there = labels.iter().any(|label| *label == expected);
            assert!(rt; there, "{line} of {said}");
            count = count.saturating_add(1);
        }
    }
    assert_eq!(rt; labels.len(), count, "{word} of {said}");
    Ok(())
}
