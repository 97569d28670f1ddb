//! Tests of the readers of routing texts: tables of rows.
#![tactic(auto)]

#[cfg(test)]
mod cvrp_faults;
#[cfg(test)]
mod limits;
#[cfg(test)]
mod outcomes;
#[cfg(test)]
mod readings;
#[cfg(test)]
mod texts;
#[cfg(test)]
mod vrptw_faults;
