//! Runs of events of the label machine: which are legal, and what they leave. The expected values are worked out by hand.

use crate::costs::{Costs, Paid};
use crate::events::{Named, events_of, place};
use crate::ladder::Ladder;
use crate::numbers::Numbers;
use label_core::{Core, PlayFault, every_run_keeps_the_rule, open_core, play};
use label_space::Space;
use std::alloc::Global;
use std::process::Abort;
use std::test::Fail;

impl Named for Numbers {
    fn named(&self, number: u8) -> u8 {
        number
    }
}

impl Named for Ladder {
    fn named(&self, number: u8) -> u8 {
        number
    }
}

impl Named for Costs {
    fn named(&self, number: u8) -> Paid {
        Paid {
            state: number / 10,
            cost: number % 10,
        }
    }
}

/// Runs over the numbers whose last event is not legal.
const NUMBERS: &str = "a second number | draw 0
a meeting with itself | meet 0 0
a cell taken twice | take 0 0 / take 0 0
taken without a number | split 0 1 / take 1 0
a taken cell | split 0 1 / draw 1 / take 0 0 / take 1 0
a meeting at home | split 0 1 / draw 1 / meet 1 0
no cell is held | back 0
a cell that is not there | take 0 4
a weight of 1 | split 0 1 / split 0 2
a place that is not next | split 0 2
joined with itself | join 0 0
joined with a holder | split 0 1 / take 0 0 / join 1 0
an ended pass | split 0 1 / join 0 1 / draw 1
a ticket without a claim | take 0 0 / ticket 0";

/// Two passes with numbers. The first is done with the root and claimed its child of state 1, the second that of state 2.
const TWO_CLAIMS: &str = "split 0 1 / draw 1
/ take 0 0 / marks 0 claim 0
/ take 0 1 / ticket 0 / put 0 0.0 10
/ take 0 2 / ticket 0 / put 0 0.0 20
/ take 0 0 / marks 0 done 0
/ take 0 1 / marks 0 claim 0
/ take 1 2 / marks 1 claim 0";

/// Then the first pass puts the labels of state 3 with the costs 5, 3 and 1.
const THREE_COSTS: &str = "
/ take 0 3 / ticket 0 / put 0 1.0 35
/ take 0 3 / ticket 0 / put 0 1.0 33
/ take 0 3 / ticket 0 / put 0 1.0 31";

/// Then both passes are done with their claims, the label of cost 1 is claimed and done, and the passes are joined.
const TO_THE_END: &str = "
/ take 1 3 / back 1
/ take 1 2 / marks 1 done 0 3.2 3.2 3.2 3.2
/ take 0 1 / marks 0 done 0 3.2
/ take 0 3 / marks 0 claim 2 ; done 2
/ join 0 1";

/// What is not legal after the three costs.
const AFTER_THREE_COSTS: &str = "a claim of a claimed entry | take 0 1 / marks 0 claim 0
a claim of an entry that is gone | take 0 3 / marks 0 claim 0
a claim of no entry | take 0 3 / marks 0 claim 3
done without a claim | take 0 3 / marks 0 done 2
done by another pass | take 0 2 / marks 0 done 0 3.2 3.2 3.2 3.2
done with one fate too few | take 0 1 / marks 0 done 0
done with one fate too many | take 0 1 / marks 0 done 0 3.2 3.2
refused, though it is not | take 0 1 / marks 0 done 0 void
a fate that does not dominate | take 0 1 / marks 0 done 0 3.0
a fate that the pass does not know | take 1 2 / marks 1 done 0 3.2 3.2 3.2 3.2
gone by itself | take 0 3 / marks 0 gone 2 3.2
gone by one that is gone | take 0 3 / marks 0 gone 0 3.1
gone by a dearer one | take 0 3 / marks 0 gone 2 3.0
gone by no entry | take 0 3 / marks 0 gone 0 3.3
gone by one of another state | take 0 3 / marks 0 gone 0 1.0
marks in no cell | marks 0 claim 2
dominated by a kept entry | take 1 3 / ticket 1 / put 1 2.0 35
not what the claim leads to | take 1 3 / ticket 1 / put 1 2.0 30
put without a ticket | take 0 3 / put 0 1.0 31
put without a claim | take 0 3 / ticket 0 / put 0 2.0 35";

/// How a run of two passes ends: with a core, or at the first event that is not legal.
fn played<S: Named>(
    alloc: Global,
    space: &S,
    text: &str,
) -> Result<(usize, Result<Core<S::Label>, u32>), Fail> {
    let events = events_of(alloc, space, text)?;
    if events.len() >= 1_000 {
        return Err(Fail::new("too many events"));
    }
    let core = open_core(alloc, space, 10, 2)?;
    match play(alloc, space, &core, events.as_slice()) {
        Ok(core) => Ok((events.len(), Ok(core))),
        Err(PlayFault::Illegal(at)) => Ok((events.len(), Err(at))),
        Err(PlayFault::Memory) => Err(Fail::new("out of memory")),
    }
}

/// The core at the end of a run that is legal.
fn ended<S: Named>(alloc: Global, space: &S, text: &str) -> Result<Core<S::Label>, Fail> {
    match played(alloc, space, text)?.1 {
        Ok(core) => Ok(core),
        Err(_) => Err(Fail::new("an event that is not legal")),
    }
}

/// Asserts that the last event of each run is the first that is not legal, after those of a run that is.
fn end_illegal<R: Abort, S: Named>(
    rt: &R,
    alloc: Global,
    space: &S,
    before: &str,
    rows: &str,
) -> Result<(), Fail> {
    for row in rows.lines() {
        let (name, events) = row.split_once(" | ").ok_or("a row without events")?;
        let mut text = String::from_str(alloc, before)?;
        text.push_str(events)?;
        let (count, end) = played(alloc, space, text.as_str())?;
        let at = match end {
            Ok(_) => None,
            Err(at) => Some(at as usize),
        };
        assert_eq!(rt; at, count.checked_sub(1), "{name}");
    }
    Ok(())
}

#[test]
fn numbers_are_played(rt: HostRuntime) -> Result<(), Fail> {
    let alloc = rt.alloc();
    every_run_keeps_the_rule(&Numbers);
    let events = "split 0 1 / draw 1 / take 0 0 / meet 1 0 / back 0 / join 0 1";
    let core = ended(alloc, &Numbers, events)?;
    let first = core.passes.as_slice().first().ok_or("no pass")?;
    assert_eq!(&rt; first.weight, 2);
    assert_eq!(&rt; first.numbers.as_slice(), [0, 1].as_slice());
    assert_eq!(&rt; first.meetings.as_slice(), [0].as_slice());
    end_illegal(&rt, alloc, &Numbers, "", NUMBERS)
}

#[test]
fn costs_are_played(rt: HostRuntime) -> Result<(), Fail> {
    let alloc = rt.alloc();
    let mut text = String::from_str(alloc, TWO_CLAIMS)?;
    text.push_str(THREE_COSTS)?;
    text.push_str(TO_THE_END)?;
    let core = ended(alloc, &Costs, text.as_str())?;
    let first = core.passes.as_slice().first().ok_or("no pass")?;
    assert_eq!(&rt; first.weight, 2);
    assert!(&rt; first.claims.is_empty());
    assert_eq!(&rt; core.tickets, 6);
    let last = core.table.cells.as_slice().get(3).ok_or("no cell")?;
    let gone = [Some(place(3, 1)), Some(place(3, 2)), None];
    assert_eq!(&rt; last.len(), gone.len());
    for (entry, by) in last.as_slice().iter().zip(gone) {
        assert_eq!(&rt; entry.gone, by);
    }
    Ok(())
}

#[test]
fn events_that_are_not_legal(rt: HostRuntime) -> Result<(), Fail> {
    let alloc = rt.alloc();
    let mut before = String::from_str(alloc, TWO_CLAIMS)?;
    before.push_str(THREE_COSTS)?;
    before.push_str(" / ")?;
    end_illegal(&rt, alloc, &Costs, before.as_str(), AFTER_THREE_COSTS)
}

#[test]
fn gone_into_another_cell(rt: HostRuntime) -> Result<(), Fail> {
    let alloc = rt.alloc();
    let events =
        "take 0 0 / marks 0 claim 0 / take 0 1 / ticket 0 / put 0 0.0 5 / take 0 0 / marks 0 gone 0 1.0";
    let core = ended(alloc, &Ladder, events)?;
    let cell = core.table.cells.as_slice().first().ok_or("no cell")?;
    let root = cell.as_slice().first().ok_or("no root")?;
    assert_eq!(&rt; root.gone, Some(place(1, 0)));
    Ok(())
}
