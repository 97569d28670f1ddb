//! A space of labels, and the laws that tables of labels rest on.
//!
//! Label setting extends a root label over numbered choices and keeps, of two labels that
//! compare, only the one that dominates. What a table may throw away follows from these laws.
#![tactic(auto)]

mod space;

pub use space::Space;
