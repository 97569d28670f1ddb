//! A simplex method in fixed point for programs over sparse columns whose rows have two ends.
//!
//! Nothing is promised of the quality of what it finds, but it takes no more turns than it is given.
#![tactic(auto)]

mod basis;
mod buffer;
mod dual;
mod path;
mod pivot;
mod prices;
mod pricing;
mod primal;
mod program;
mod ratio;
mod start;
mod values;

pub use basis::{Basic, Region, Simplex};
pub use program::{LinearProgram, Member, Span, SparseColumn};
