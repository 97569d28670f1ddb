//! Events of the label machine, read of a text: `take 0 3 / ticket 0 / put 0 1.0 35 / marks 0 claim 2 ; done 2 3.1 void`.

use label_core::{Event, Fate, Mark, Place};
use label_space::Space;
use path_graph::List;
use std::alloc::Global;
use std::test::Fail;

/// A space whose labels have numbers.
pub trait Named: Space {
    /// The label of a number.
    fn named(&self, number: u8) -> Self::Label;
}

/// The place with this index in a cell.
pub fn place(cell: u32, index: u32) -> Place {
    Place { cell, index }
}

/// The events of a text, in order.
pub fn events_of<S: Named>(
    alloc: Global,
    space: &S,
    text: &str,
) -> Result<Vec<Event<S::Label>>, Fail> {
    let mut events = Vec::new(alloc);
    for event in text.split('/') {
        events.push(event_of(alloc, space, event)?)?;
    }
    Ok(events)
}

/// The word and the rest of a text after it.
fn first_word(text: &str) -> Result<(&str, &str), Fail> {
    let text = text.trim();
    match text.split_once(' ') {
        Some((word, rest)) => Ok((word, rest)),
        None => Ok((text, "")),
    }
}

/// The number of a word.
fn number(word: Option<&str>) -> Result<u32, Fail> {
    let word = word.ok_or("a number is missing")?;
    Ok(word.parse::<u32>()?)
}

/// The place of a word, as `3.1`.
fn place_of(word: Option<&str>) -> Result<Place, Fail> {
    let word = word.ok_or("a place is missing")?;
    let (cell, index) = word.split_once('.').ok_or("a place without an index")?;
    Ok(place(cell.parse::<u32>()?, index.parse::<u32>()?))
}

/// The fates of words: places, and `void` for an extension that is refused.
fn fates_of(alloc: Global, words: &str) -> Result<List<Fate>, Fail> {
    let mut fates = List::new(alloc);
    for word in words.split_whitespace() {
        let fate = if word == "void" {
            Fate::Void
        } else {
            Fate::At(place_of(Some(word))?)
        };
        fates.push(fate)?;
    }
    Ok(fates)
}

/// The mark of a text, as `gone 0 3.1`.
fn mark_of(alloc: Global, text: &str) -> Result<Mark, Fail> {
    let (kind, rest) = first_word(text)?;
    let (index, rest) = first_word(rest)?;
    let index = number(Some(index))?;
    match kind {
        "claim" => Ok(Mark::Claim(index)),
        "done" => Ok(Mark::Done(index, fates_of(alloc, rest)?)),
        "gone" => Ok(Mark::Gone(index, place_of(Some(rest.trim()))?)),
        _ => Err(Fail::new("an unknown mark")),
    }
}

/// The marks of a text, in order.
fn marks_of(alloc: Global, text: &str) -> Result<List<Mark>, Fail> {
    let mut marks = List::new(alloc);
    for mark in text.split(';') {
        marks.push(mark_of(alloc, mark)?)?;
    }
    Ok(marks)
}

/// The event of a text.
fn event_of<S: Named>(alloc: Global, space: &S, text: &str) -> Result<Event<S::Label>, Fail> {
    let (kind, rest) = first_word(text)?;
    let (pass, rest) = first_word(rest)?;
    let pass = number(Some(pass))?;
    if kind == "marks" {
        return Ok(Event::PutMarks(pass, marks_of(alloc, rest)?));
    }
    if kind == "put" {
        return put_of(alloc, space, pass, rest);
    }
    match kind {
        "draw" => Ok(Event::Draw(pass)),
        "back" => Ok(Event::Back(pass)),
        "ticket" => Ok(Event::Ticket(pass)),
        _ => event_with(kind, pass, number(Some(rest.trim()))?),
    }
}

/// The event of a pass with a cell or another pass.
fn event_with<L>(kind: &str, pass: u32, other: u32) -> Result<Event<L>, Fail> {
    match kind {
        "take" => Ok(Event::Take(pass, other)),
        "meet" => Ok(Event::Meet(pass, other)),
        "split" => Ok(Event::Split(pass, other)),
        "join" => Ok(Event::Join(pass, other)),
        _ => Err(Fail::new("an unknown event")),
    }
}

/// A new entry over the next choice of a claim, as `1.0 35`: the claim, and the label by its number.
fn put_of<S: Named>(
    alloc: Global,
    space: &S,
    pass: u32,
    text: &str,
) -> Result<Event<S::Label>, Fail> {
    let mut words = text.split_whitespace();
    let claim = place_of(words.next())?;
    let label = words.next().ok_or("a label is missing")?;
    let label = space.named(label.parse::<u8>()?);
    Ok(Event::PutEntry(pass, claim, List::new(alloc), label))
}
