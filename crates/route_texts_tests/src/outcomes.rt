//! What a text is read as, and what is expected of it.

use route_tasks::{RouteTask, Stop, Style};
use route_texts::{RouteError, RouteFault, read_cvrp, read_vrptw};
use std::alloc::Global;
use std::process::Abort;
use std::test::Fail;

/// The two kinds of texts.
#[derive(Clone, Copy)]
pub enum Kind {
    Cvrp,
    Vrptw,
}

/// The task of the text, or its fault.
fn read(alloc: Global, kind: Kind, text: &[u8]) -> Result<Result<RouteTask, RouteFault>, Fail> {
    if text.len() >= 4_294_967_295 {
        return Err(Fail::new("a text is too long"));
    }
    let read = match kind {
        Kind::Cvrp => read_cvrp(alloc, text),
        Kind::Vrptw => read_vrptw(alloc, text),
    };
    match read {
        Ok(task) => Ok(Ok(task)),
        Err(RouteError::Text(fault)) => Ok(Err(fault)),
        Err(RouteError::Memory) => Err(Fail::new("out of memory")),
    }
}

/// Asserts that the text has the fault that is told as its line and the number of its kind, as `16 43`.
pub fn refuses<R: Abort>(
    rt: &R,
    alloc: Global,
    kind: Kind,
    text: &[u8],
    expected: &str,
    row: &str,
) -> Result<(), Fail> {
    let fault = read(alloc, kind, text)?.err().expect(rt, row);
    let told = format!(in alloc; "{} {}", fault.line, fault.kind.number())?;
    assert_eq!(rt; told.as_str(), expected, "{row}");
    Ok(())
}

/// A stop as its seven numbers.
fn told_stop(alloc: Global, stop: &Stop) -> Result<String, Fail> {
    let place = format!(in alloc; "{} {} {} {}", stop.number, stop.x, stop.y, stop.demand)?;
    let told = format!(in alloc; "{place} {} {} {}", stop.ready, stop.due, stop.service)?;
    Ok(told)
}

/// A task as vehicles and capacity, the depot and each customer.
fn told_task(alloc: Global, task: &RouteTask) -> Result<String, Fail> {
    let style = match task.style {
        Style::Euclid => "euclid",
        Style::Tenths => "tenths",
    };
    let depot = told_stop(alloc, &task.depot)?;
    let mut told = format!(in alloc; "{style} {} {} / {depot}", task.vehicles, task.capacity)?;
    for stop in task.stops.as_slice() {
        let stop = told_stop(alloc, stop)?;
        told = format!(in alloc; "{told} / {stop}")?;
    }
    Ok(told)
}

/// Asserts that the text is read as this task.
pub fn reads<R: Abort>(
    rt: &R,
    alloc: Global,
    kind: Kind,
    text: &[u8],
    expected: &str,
    row: &str,
) -> Result<(), Fail> {
    let task = read(alloc, kind, text)?.expect(rt, row);
    let told = told_task(alloc, &task)?;
    assert_eq!(rt; told.as_str(), expected, "{row}");
    Ok(())
}

/// Asserts that the text is read as a task with so many customers.
pub fn reads_customers<R: Abort>(
    rt: &R,
    alloc: Global,
    kind: Kind,
    text: &[u8],
    expected: usize,
) -> Result<(), Fail> {
    let task = read(alloc, kind, text)?.expect(rt, "a text at the limit");
    assert_eq!(rt; task.stops.len(), expected);
    Ok(())
}
