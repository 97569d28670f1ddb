//! What is said of a model in lines that begin with a word.
//!
//! `vars`, `rows`, `sets` and `paths` have multipliers, 0 for a kind that is not there. A line `cut` has a denominator, a
//! weight, a number of sets, each set with its numerator, and the sets of the memory. A line `near` has a vertex of graph 0
//! and the sets near it. `var` and `path` narrow a box, by its number and both ends, and `drop` drops an arc of graph 0.

ghost use Rattle.std.specs.Prelude.{IfOk};
ghost use Rattle.ng_sets.specs.Near.{FitsGraphs};

use multipliers::root_spot;
use ng_sets::Near;
use path_graph::{List, SetBits};
use rank1_cuts::{Cut, CutSet};
use route_model::{Model, Mult, Span, Spot};
use std::alloc::Global;
use std::test::Fail;

/// What stands behind a word at the beginning of a line, the first such.
pub fn after<'a>(said: &'a str, word: &str) -> Option<&'a str> {
    for line in said.lines() {
        if let Some(rest) = line.strip_prefix(word) {
            return Some(rest);
        }
    }
    None
}

/// The numbers of a line.
pub fn integers(alloc: Global, text: &str) -> Result<Vec<i64>, Fail> {
    let mut integers = Vec::new(alloc);
    for word in text.split_whitespace() {
        integers.push(word.parse::<i64>()?)?;
    }
    Ok(integers)
}

/// So many numbers: those of a line, or all 0 where there is none.
fn some_of(alloc: Global, line: Option<&str>, count: usize) -> Result<List<i64>, Fail> {
    match line {
        Some(text) => Ok(List::from_vec(integers(alloc, text)?)),
        None => Ok(List::from_vec(vec![in alloc; 0; count]?)),
    }
}

/// The multipliers that are said.
pub fn mult_of(alloc: Global, model: &Model, said: &str) -> Result<Mult, Fail> {
    let vars = some_of(alloc, after(said, "vars"), model.vars.len())?;
    let rows = some_of(alloc, after(said, "rows"), model.rows.len())?;
    let sets = some_of(alloc, after(said, "sets"), model.sets as usize)?;
    let paths = some_of(alloc, after(said, "paths"), model.graphs.len())?;
    let cuts = weights_of(alloc, said)?;
    Ok(Mult {
        vars,
        rows,
        sets,
        cuts,
        paths,
    })
}

/// The weights of the cuts that are said.
fn weights_of(alloc: Global, said: &str) -> Result<List<u64>, Fail> {
    let mut weights = Vec::new(alloc);
    for line in said.lines() {
        if let Some(rest) = line.strip_prefix("cut ") {
            let word = rest
                .split_whitespace()
                .nth(1)
                .ok_or("a cut without a weight")?;
            weights.push(word.parse::<u64>()?)?;
        }
    }
    Ok(List::from_vec(weights))
}

/// The cuts that are said.
pub fn cuts_of(alloc: Global, said: &str) -> Result<Vec<Cut>, Fail> {
    let mut cuts = Vec::new(alloc);
    for line in said.lines() {
        if let Some(rest) = line.strip_prefix("cut ") {
            cuts.push(cut_of(alloc, integers(alloc, rest)?.as_slice())?)?;
        }
    }
    Ok(cuts)
}

/// A cut from its numbers: the denominator, the weight, the number of sets, sets with numerators, and the memory.
fn cut_of(alloc: Global, numbers: &[i64]) -> Result<Cut, Fail> {
    let mut sets = Vec::new(alloc);
    let mut memory = SetBits::empty();
    let count = usize::try_from(*numbers.get(2).ok_or("a cut without sets")?)?;
    let mut numerator = false;
    let mut set = 0;
    for (k, number) in numbers.iter().enumerate().skip(3) {
        let number = u16::try_from(*number)?;
        if (k - 3) / 2 >= count {
            if number < 512 {
                memory = memory.with(number);
            }
        } else if numerator {
            sets.push(CutSet {
                set,
                num: u8::try_from(number)?,
            })?;
            numerator = false;
        } else {
            set = number;
            numerator = true;
        }
    }
    let den = u8::try_from(*numbers.first().ok_or("a cut without a denominator")?)?;
    Ok(Cut {
        den,
        sets: List::from_vec(sets),
        memory,
    })
}

/// The sets of words.
pub fn sets_of(text: &str) -> Result<SetBits, Fail> {
    let mut sets = SetBits::empty();
    for word in text.split_whitespace() {
        let set = word.parse::<u16>()?;
        if set >= 512 {
            return Err(Fail::new("an unknown set"));
        }
        sets = sets.with(set);
    }
    Ok(sets)
}

/// The near lists that are said, for the graphs of the model.
pub fn near_of(alloc: Global, model: &Model, said: &str) -> Result<Near, Fail>
    ensures { IfOk result (λ near. FitsGraphs near model.now.graphs) }
{
    let mut near = Near::new(alloc, model.graphs.as_slice())?;
    for line in said.lines() {
        if let Some(rest) = line.strip_prefix("near ") {
            put_near(model, &mut near, rest)?;
        }
    }
    Ok(near)
}

/// Puts the sets of a line near its vertex of graph 0.
fn put_near(model: &Model, near: &mut Near, line: &str) -> Result<(), Fail>
    requires { FitsGraphs near.old model.now.graphs }
    ensures { FitsGraphs near.new model.now.graphs }
{
    let (vertex, sets) = line.split_once(" ").ok_or("a near list without sets")?;
    let vertex = vertex.parse::<u32>()?;
    if model.graphs.is_empty() || vertex >= model.graphs.at(0).vertex_count() {
        return Err(Fail::new("a near list of an unknown vertex"));
    }
    near.put(0, vertex, sets_of(sets)?);
    Ok(())
}

/// The place that is said: the root, but for boxes and dropped arcs.
pub fn place_of(alloc: Global, model: &Model, said: &str) -> Result<Spot, Fail> {
    let mut spot = root_spot(alloc, model)?.copy(alloc)?;
    for line in said.lines() {
        if let Some(rest) = line.strip_prefix("var ") {
            narrow(&mut spot.boxes.vars, integers(alloc, rest)?.as_slice())?;
        } else if let Some(rest) = line.strip_prefix("path ") {
            narrow(&mut spot.boxes.paths, integers(alloc, rest)?.as_slice())?;
        } else if let Some(rest) = line.strip_prefix("drop ") {
            drop_arc(&mut spot.fixed, rest.trim().parse::<u32>()? as usize);
        }
    }
    Ok(spot)
}

/// Puts a box, by its number and both ends.
fn narrow(spans: &mut List<Span>, numbers: &[i64]) -> Result<(), Fail> {
    let (Some(place), Some(low), Some(high)) = (numbers.first(), numbers.get(1), numbers.get(2))
    else {
        return Err(Fail::new("a box without ends"));
    };
    let place = usize::try_from(*place)?;
    if place >= spans.len() {
        return Err(Fail::new("an unknown box"));
    }
    spans.set(
        place,
        Span {
            low: *low,
            high: *high,
        },
    );
    Ok(())
}

/// Drops an arc of graph 0, if there is a mark for it.
fn drop_arc(fixed: &mut List<List<bool>>, arc: usize) {
    if fixed.is_empty() {
        return;
    }
    let marks = fixed.at_mut(0);
    if arc < marks.len() {
        marks.set(arc, true);
    }
}
