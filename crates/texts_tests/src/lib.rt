//! Tests of lines, words and numbers, and of the texts of models: tables of rows.
#![tactic(auto)]

#[cfg(test)]
mod faults;
#[cfg(test)]
mod first_faults;
#[cfg(test)]
mod lexing;
#[cfg(test)]
mod limits;
#[cfg(test)]
mod line_words;
#[cfg(test)]
mod outcomes;
#[cfg(test)]
mod plans;
#[cfg(test)]
mod printing;
#[cfg(test)]
mod texts;
