//! Tests of the check of certificates: tables of rows.
#![tactic(auto)]

#[cfg(test)]
mod certs;
#[cfg(test)]
mod closes;
#[cfg(test)]
mod counts;
#[cfg(test)]
mod fixes;
#[cfg(test)]
mod limits;
#[cfg(test)]
mod outcomes;
