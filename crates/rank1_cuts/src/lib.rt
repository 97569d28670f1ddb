//! Rank-1 cuts with limited memory: which cuts fit, their right sides, and their coefficients.
//!
//! A cut bounds how often the visits of its packing sets add up to its denominator, over all walks of a plan.
#![tactic(auto)]

mod cut;
mod fit;
mod visits;

pub use cut::{Cut, CutFault, CutSet};
pub use fit::{cut_fits, right_side};
pub use visits::{coef, step_state};
