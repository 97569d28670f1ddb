//! Tables of labels: their entries, what holds of them, and how an entry joins a cell.
//!
//! The definitions are those of every table, however it is filled.
#![tactic(auto)]

mod beginning;
mod copies;
mod fates;
mod machine;
mod machine_law;
mod mark_events;
mod marks;
mod passes;
mod playing;
mod puts;
mod table;
mod walk;

pub use beginning::open_core;
pub use machine::{ClaimState, Core, Event, Mark, PassState};
pub use machine_law::every_run_keeps_the_rule;
pub use marks::{kept_dominator, mark_dominated, put_last};
pub use playing::{PlayFault, play};
pub use table::{Entry, Fate, Origin, Place, Table, Turn};
pub use walk::walk_of;
