//! Tests of the texts of certificates: tables of rows.
#![tactic(auto)]

#[cfg(test)]
mod certs;
#[cfg(test)]
mod faults;
#[cfg(test)]
mod limits;
#[cfg(test)]
mod outcomes;
#[cfg(test)]
mod printing;
