//! Path graphs: directed graphs whose walks from a source to a sink consume resources.
//!
//! The crate defines feasible walks, and tests whether a list of arcs is one.
//! It also has `List` and `NoMemory`, which every crate above uses.
#![tactic(auto)]

mod arc_lists;
mod fault;
mod fit;
mod graph;
mod levels;
mod limits;
mod list;
mod parts;
mod ranking;
mod rest;
mod set_bits;
mod walk;

pub use fault::GraphFault;
pub use fit::{is_used, parts_fit};
pub use graph::Graph;
pub use levels::level;
pub use limits::{MAX_AMOUNT, MAX_ARCS, MAX_PATHS, MAX_SETS, MAX_VERTICES};
pub use list::{List, NoMemory};
pub use parts::{Ends, GraphArc, Values, Vertex, Window};
pub use rest::{before, end_values, joins};
pub use set_bits::SetBits;
pub use walk::{after, is_walk, root_values};
