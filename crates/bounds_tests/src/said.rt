//! What is said of a model in a block: lines that begin with a word, followed by numbers.

use model_text::read_model;
use path_graph::{List, SetBits};
use rank1_cuts::{Cut, CutSet};
use route_model::{Model, Mult};
use std::alloc::Global;
use std::test::Fail;

/// The model of a text that is not too long.
pub fn short_model(alloc: Global, text: &[u8]) -> Result<Model, Fail> {
    if text.len() >= 10_000 {
        return Err(Fail::new("a text is too long"));
    }
    Ok(read_model(alloc, text)?)
}

/// The rest of the first line that begins with this word.
pub fn after<'a>(said: &'a str, word: &str) -> Option<&'a str> {
    for line in said.lines() {
        if let Some(rest) = line.strip_prefix(word) {
            return Some(rest);
        }
    }
    None
}

/// The numbers of a line.
pub fn integers(alloc: Global, text: &str) -> Result<Vec<i64>, Fail> {
    let mut integers = Vec::new(alloc);
    for word in text.split_whitespace() {
        integers.push(word.parse::<i64>()?)?;
    }
    Ok(integers)
}

/// So many numbers: those of a line, or all 0 where there is none.
fn some_of(alloc: Global, line: Option<&str>, count: usize) -> Result<List<i64>, Fail> {
    match line {
        Some(text) => Ok(List::from_vec(integers(alloc, text)?)),
        None => Ok(List::from_vec(vec![in alloc; 0; count]?)),
    }
}

/// The multipliers that are said, with 0 for a kind of which nothing is said.
pub fn mult_of(alloc: Global, model: &Model, said: &str) -> Result<Mult, Fail> {
    let vars = some_of(alloc, after(said, "vars"), model.vars.len())?;
    let rows = some_of(alloc, after(said, "rows"), model.rows.len())?;
    let sets = some_of(alloc, after(said, "sets"), model.sets as usize)?;
    let paths = some_of(alloc, after(said, "paths"), model.graphs.len())?;
    let mut cuts = List::new(alloc);
    if let Some(line) = after(said, "cut") {
        cuts.push(weight_of(alloc, line)?)?;
    }
    Ok(Mult {
        vars,
        rows,
        sets,
        cuts,
        paths,
    })
}

/// How far below 0 the multiplier of a cut is: the first number of its line.
fn weight_of(alloc: Global, line: &str) -> Result<u64, Fail> {
    let numbers = integers(alloc, line)?;
    match numbers.as_slice().first() {
        Some(weight) => Ok(weight.unsigned_abs()),
        None => Err(Fail::new("a cut without a multiplier")),
    }
}

/// The cut that is said, if one is: with denominator 2, on the sets behind its multiplier, each with numerator 1, which
/// are its memory too.
pub fn cuts_of(alloc: Global, said: &str) -> Result<Vec<Cut>, Fail> {
    let mut cuts = Vec::new(alloc);
    if let Some(line) = after(said, "cut") {
        cuts.push(cut_of(alloc, integers(alloc, line)?.as_slice())?)?;
    }
    Ok(cuts)
}

fn cut_of(alloc: Global, numbers: &[i64]) -> Result<Cut, Fail> {
    let mut sets = Vec::new(alloc);
    let mut memory = SetBits::empty();
    for number in numbers.iter().skip(1) {
        let set = u16::try_from(*number)?;
        if set < 512 {
            memory = memory.with(set);
        }
        sets.push(CutSet { set, num: 1 })?;
    }
    Ok(Cut {
        den: 2,
        sets: List::from_vec(sets),
        memory,
    })
}
