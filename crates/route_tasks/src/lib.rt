//! Routing tasks, exact distances, the model that is built of a task, and the routes of its solutions.
#![tactic(auto)]

mod building;
mod distances;
mod graphs;
mod laws;
mod limits;
mod places;
mod routing;
mod rows;
mod task;

pub use building::build_model;
pub use distances::distance;
pub use laws::routes_have_solutions;
pub use limits::{
    MAX_COORDINATE, MAX_CUSTOMERS, MAX_DISTANCE, MAX_LOAD, MAX_NUMBER, MAX_SERVICE, MAX_TIME,
    MAX_VEHICLES, TENTHS,
};
pub use routing::routes_of;
pub use task::{RouteTask, Stop, Style};
