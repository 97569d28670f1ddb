//! Tests of terms, shut arcs, priced multipliers, bounds and limits: tables of rows.
#![tactic(auto)]

#[cfg(test)]
mod bounds;
#[cfg(test)]
mod fitting;
#[cfg(test)]
mod pricing;
#[cfg(test)]
mod rows;
#[cfg(test)]
mod said;
#[cfg(test)]
mod shut;
#[cfg(test)]
mod terms;
