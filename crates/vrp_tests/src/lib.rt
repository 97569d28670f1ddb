//! Tests of the program over sources and sinks in memory and over files: tables of rows.
#![tactic(auto)]

#[cfg(test)]
mod checking;
#[cfg(test)]
mod evaluating;
#[cfg(test)]
mod printing;
#[cfg(test)]
mod refused_words;
#[cfg(test)]
mod retrying;
#[cfg(test)]
mod running;
#[cfg(test)]
mod solving;
#[cfg(test)]
mod streams;
