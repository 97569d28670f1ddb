//! Models, plans, and what makes a plan a solution.
#![tactic(auto)]

mod arithmetic;
mod build;
mod coefs;
mod costs;
mod fit;
mod limits;
mod multipliers;
mod parts;
mod places;
mod plan;
mod quantities;
mod shut;
mod solution;
mod terms;
mod tidying;
pub mod wide;

pub use arithmetic::{product, product_ends, sum_of};
pub use costs::box_costs;
pub use fit::{model_fits, path_total};
pub use limits::{
    MAX_ALL_ARCS, MAX_COEF, MAX_COEF_SUM, MAX_COST, MAX_COST_RANGE, MAX_GRAPHS, MAX_MAPPED,
    MAX_MULT, MAX_ROWS, MAX_SIDE, MAX_TERMS, MAX_VALUE, MAX_VARS, SCALE,
};
pub use multipliers::{Mult, MultFault, Priced, Quantity};
pub use parts::{BuildFault, Model, Row, RowTerm, Var};
pub use places::{Boxes, Span, Split, Spot};
pub use plan::{Plan, Taken, Verdict};
pub use shut::{drops_keep_solutions, is_shut, splits_keep_solutions};
pub use solution::{is_between, judge};
pub use terms::term;
pub use tidying::tidy;
