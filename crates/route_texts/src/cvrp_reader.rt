ghost use Rattle.std.specs.Prelude.{◌≡◌, ◌<◌, ◌-◌, ◌^◌, length, IfOk};
ghost use Rattle.route_tasks.specs.Fit.{TaskFits};
ghost use Rattle.route_texts.specs.Words.{words_in};
ghost use Rattle.route_texts.specs.Gives.{Gives, GivesText};
ghost use Rattle.route_texts.specs.CvrpDraft.{empty_draft};
ghost use Rattle.route_texts.specs.CvrpLines.{ends_text};
ghost use Rattle.route_texts.specs.CvrpText.{stop_of, customers_of, is_complete, task_of, cvrp_reading, cvrp_read, CvrpFits};

use crate::cvrp_draft::{Begun, CvrpDraft, Node};
use crate::cvrp_lines::{are_demanded, are_placed, has_keys, take_line};
use crate::cvrp_words::{is_end, node_at};
use crate::fault::{LineFault, RouteError, RouteKind};
use crate::line_reader::{LineReader, read_lines};
use crate::stops::Point;
use crate::words::split_word;
use path_graph::{List, NoMemory};
use route_tasks::{RouteTask, Stop, Style};
use std::alloc::Global;

/// The stop of a node.
fn stop_of(node: &Node) -> Stop
    ensures { result ≡ stop_of node.now }
{
    let point = node.point.unwrap_or(Point { x: 0, y: 0 });
    Stop {
        number: node.number,
        x: point.x,
        y: point.y,
        demand: node.demand.unwrap_or(0),
        ready: 0,
        due: 0,
        service: 0,
    }
}

/// The stops of all nodes but the depot.
fn customers_of(alloc: Global, depot: u32, nodes: &[Node]) -> Result<List<Stop>, NoMemory>
    ensures { IfOk result (λ stops. stops ≡ customers_of depot nodes.now) }
{
    let mut stops = List::new(alloc);
    for node in nodes {
        if node.number != depot {
            stops.push(stop_of(node))?;
        }
    }
    Ok(stops)
}

/// Whether nothing is missing but maybe the capacity or the depot.
fn is_complete(draft: &CvrpDraft) -> bool
    ensures { result ≡ is_complete draft.now }
{
    if !are_placed(draft.nodes.as_slice()) || !are_demanded(draft.nodes.as_slice()) {
        return false;
    }
    draft.closed && has_keys(draft)
}

/// The task of all lines.
fn task_of(alloc: Global, draft: &CvrpDraft) -> Result<RouteTask, LineFault>
    requires { CvrpFits draft.now }
    ensures gives { Gives (λ task. task) result (task_of draft.now draft.now.capacity draft.now.depot) }
    ensures fits { IfOk result TaskFits }
{
    let Some(capacity) = draft.capacity else {
        return Err(LineFault::Fault(RouteKind::Missing));
    };
    let Some(depot) = draft.depot else {
        return Err(LineFault::Fault(RouteKind::Missing));
    };
    if !is_complete(draft) {
        return Err(LineFault::Fault(RouteKind::Missing));
    }
    let stops = customers_of(alloc, depot, draft.nodes.as_slice())?;
    Ok(RouteTask {
        style: Style::Euclid,
        vehicles: stops.len() as u32,
        capacity,
        depot: stop_of(&node_at(&draft.nodes, depot)),
        stops,
    })
}

/// Whether a line ends the text.
fn ends_text(line: &[u8]) -> bool
    ensures { result ≡ ends_text (words_in line.now) }
{
    match split_word(line) {
        None => false,
        Some((first, _)) => is_end(first),
    }
}

fn empty_draft(alloc: Global) -> CvrpDraft
    ensures { result ≡ empty_draft }
{
    CvrpDraft {
        has_type: false,
        has_distances: false,
        capacity: None,
        nodes: List::new(alloc),
        section: None,
        begun: Begun {
            points: false,
            demands: false,
            depot: false,
        },
        depot: None,
        closed: false,
    }
}

impl LineReader for CvrpDraft {
    ghost reading = { cvrp_reading };

    ghost sound = { CvrpFits };

    fn take_line(&mut self, alloc: Global, line: &[u8]) -> Result<(), LineFault> {
        take_line(self, alloc, line)
    }

    fn ends(line: &[u8]) -> bool {
        ends_text(line)
    }

    fn task(self, alloc: Global) -> Result<RouteTask, LineFault> {
        task_of(alloc, &self)
    }
}

/// The task of a CVRP text, or its first fault.
///
/// The time is linear in the text, and in the square of the nodes.
pub fn read_cvrp(alloc: Global, bytes: &[u8]) -> Result<RouteTask, RouteError>
    requires { length bytes.now < 2 ^ 32 - 1 }
    ensures gives { GivesText (λ task. task) result (cvrp_read bytes.now) }
    ensures fits { IfOk result TaskFits }
{
    read_lines(empty_draft(alloc), alloc, bytes)
}
