ghost use Rattle.std.specs.Prelude.{◌≡◌, ◌<◌, ◌-◌, ◌^◌, length, IfOk, IfErr};
ghost use Rattle.route_tasks.specs.declared.task.RouteTask.{RouteTask};
ghost use Rattle.route_tasks.specs.Fit.{TaskFits};
ghost use Rattle.route_texts.specs.Gives.{Gives, GivesText};
ghost use Rattle.route_texts.specs.Vrptw.{VrptwFits, task_of, vrptw_reading, vrptw_read};
ghost use Rattle.route_texts.specs.VrptwRows.{SaysVrptw, IsVrptwRefusal};

use crate::fault::{LineFault, RouteError, RouteKind};
use crate::line_reader::{LineReader, read_lines};
use crate::vrptw_draft::VrptwDraft;
use crate::vrptw_lines::take_line;
use path_graph::List;
use route_tasks::{RouteTask, Style};
use std::alloc::Global;

/// The task of all rows.
fn task_of(draft: VrptwDraft) -> Result<RouteTask, LineFault>
    requires { VrptwFits draft }
    ensures gives { Gives (λ task. task) result (task_of draft.fleet draft.depot draft.stops) }
    ensures fits { IfOk result TaskFits }
{
    let VrptwDraft {
        fleet,
        depot,
        stops,
    } = draft;
    let Some(fleet) = fleet else {
        return Err(LineFault::Fault(RouteKind::Missing));
    };
    let Some(depot) = depot else {
        return Err(LineFault::Fault(RouteKind::Missing));
    };
    if stops.is_empty() {
        return Err(LineFault::Fault(RouteKind::Missing));
    }
    Ok(RouteTask {
        style: Style::Tenths,
        vehicles: fleet.vehicles,
        capacity: fleet.capacity,
        depot,
        stops,
    })
}

impl LineReader for VrptwDraft {
    ghost reading = { vrptw_reading };

    ghost sound = { VrptwFits };

    fn take_line(&mut self, _alloc: Global, line: &[u8]) -> Result<(), LineFault> {
        take_line(self, line)
    }

    fn ends(_line: &[u8]) -> bool {
        false
    }

    fn task(self, _alloc: Global) -> Result<RouteTask, LineFault> {
        task_of(self)
    }
}

/// The task of a VRPTW text, or its first fault.
///
/// The time is linear in the text, and in the square of the customers.
pub fn read_vrptw(alloc: Global, bytes: &[u8]) -> Result<RouteTask, RouteError>
    requires { length bytes.now < 2 ^ 32 - 1 }
    ensures gives { GivesText (λ task. task) result (vrptw_read bytes.now) }
    ensures says { IfOk result (SaysVrptw bytes.now) }
    ensures only { IfOk result (λ task. (other : RouteTask) → SaysVrptw bytes.now other → other ≡ task) }
    ensures refused { IfErr result (IsVrptwRefusal bytes.now) }
    ensures fits { IfOk result TaskFits }
{
    let fresh = VrptwDraft {
        fleet: None,
        depot: None,
        stops: List::new(alloc),
    };
    read_lines(fresh, alloc, bytes)
}
