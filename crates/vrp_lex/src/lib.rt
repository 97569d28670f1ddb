//! Lines, words and numbers of a text.
//!
//! A text is bytes. The crate finds the next line, its words and the numbers that they are, and finds a byte that is
//! not accepted. It takes no memory.
#![tactic(auto)]

mod lines;
mod numbers;
mod words;

pub use lines::{Line, bad_byte, next_line};
pub use numbers::{Amount, number};
pub use words::{split_word, word};
