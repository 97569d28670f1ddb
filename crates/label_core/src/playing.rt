//! Runs of events.

ghost use Rattle.label_core.specs.declared.playing.PlayFault.TheVariants.{Memory};
ghost use Rattle.std.specs.Prelude.{◌≡◌, ◌<◌, ◌-◌, ◌^◌, ℕ, IfOk, length};
ghost use Rattle.label_core.specs.Walks.{HasOrigins};
ghost use Rattle.label_core.specs.Points.{HasLabels, HasLinks, IsApart, Stays};
ghost use Rattle.label_core.specs.Plays.{Decides, IsFirstIllegal, IsClosedAtEnd};
ghost use Rattle.label_core.specs.Rule.{IsRuled};
ghost use Rattle.label_core.specs.Runs.{Runs};
ghost use Rattle.label_core.specs.Steps.{Steps};

use crate::copies::TryCopy;
use crate::machine::{Core, Event};
use crate::mark_events::put_marks;
use crate::passes::{draw, draw_ticket, give_back, join, meet, split, take};
use crate::puts::put_entry;
use label_space::Space;
use path_graph::NoMemory;
use std::alloc::Global;

/// Why a run of events has no end.
#[derive(Clone, Copy, Debug, PartialEq, Eq)]
pub enum PlayFault {
    /// The event at this place is the first that is not legal.
    Illegal(u32),
    Memory,
}

impl From<NoMemory> for PlayFault {
    ghost from_gives = { λ _ e. e ≡ Memory };

    fn from(_error: NoMemory) -> PlayFault {
        PlayFault::Memory
    }
}

/// The most entries that are made.
fn limit_of<L>(core: &Core<L>) -> u32
    ensures { result ≡ core.now.limit }
{
    core.limit
}

/// The weight of all passes together.
fn weight_of<L>(core: &Core<L>) -> u32
    ensures { result ≡ core.now.weight }
{
    core.weight
}

/// The core after an event, or none where the event is not legal.
fn step<S: Space>(
    alloc: Global,
    space: &S,
    core: Core<S::Label>,
    event: &Event<S::Label>,
) -> Result<Option<Core<S::Label>>, NoMemory>
    requires { IsRuled (S.rules space.now) core }
    ensures { IfOk result (Decides (Steps (S.rules space.now) core event.now)) }
{
    let _limit = limit_of(&core);
    let _weight = weight_of(&core);
    match event {
        Event::Draw(p) => draw(core, *p),
        Event::Take(p, c) => Ok(take(core, *p, *c)),
        Event::Meet(p, c) => meet(core, *p, *c),
        Event::Back(p) => Ok(give_back(core, *p)),
        Event::PutEntry(p, at, fates, label) => {
            put_entry(alloc, space, core, *p, *at, fates.as_slice(), label)
        }
        Event::PutMarks(p, marks) => put_marks(alloc, space, core, *p, marks.as_slice()),
        Event::Ticket(p) => Ok(draw_ticket(core, *p)),
        Event::Split(p, q) => split(alloc, core, *p, *q),
        Event::Join(p, q) => join(alloc, core, *p, *q),
    }
}

/// The core after these events.
///
/// The given core is copied once, and each event changes the copy.
pub fn play<S: Space>(
    alloc: Global,
    space: &S,
    core: &Core<S::Label>,
    events: &[Event<S::Label>],
) -> Result<Core<S::Label>, PlayFault>
    requires rule { IsRuled (S.rules space.now) core.now }
    requires few { length events.now < 2 ^ 32 - 1 }

    // The events were legal, one after the other; or this is the first that is not.
    ensures runs { IfOk result (Runs (S.rules space.now) core.now events.now) }
    ensures illegal { (i : ℕ) → result ≡ Err (PlayFault.Illegal i)
        → IsFirstIllegal (S.rules space.now) core.now events.now i }

    // What holds between any two events.
    ensures rule { IfOk result (IsRuled (S.rules space.now)) }

    // Entries never move, and their labels and origins never change. Origins lead back to the root, and are different;
    // each label is its parent's over the origin's arc.
    ensures stays { IfOk result (λ new. Stays core.now.table.cells new.table.cells) }
    ensures origins { IfOk result (λ new. HasOrigins new.table.cells) }
    ensures labels { IfOk result (λ new. HasLabels (S.rules space.now) new.table.cells) }

    // The links of entries that are gone lead to kept ones that dominate; kept entries of one cell dominate none of each
    // other.
    ensures links { IfOk result (λ new. HasLinks (S.rules space.now) new.table.cells) }
    ensures apart { IfOk result (λ new. IsApart (S.rules space.now) new.table.cells) }

    // Where no kept entry is fresh or claimed, the kept labels are closed and represent every list of choices.
    ensures closed { IfOk result (λ new. IsClosedAtEnd (S.rules space.now) new.table.cells) }
{
    let mut played = core.try_copy(alloc)?;
    for i in 0..events.len() {
        let Some(next) = step(alloc, space, played, &events[i])? else {
            return Err(PlayFault::Illegal(i as u32));
        };
        played = next;
    }
    Ok(played)
}
