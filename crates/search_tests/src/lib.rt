//! Tests of splits, the queue of open nodes and the pool of walks: tables of rows.
#![tactic(auto)]

#[cfg(test)]
mod models;
#[cfg(test)]
mod pools;
#[cfg(test)]
mod queues;
#[cfg(test)]
mod splits;
