//! Texts of lines, for any grammar of lines: readers of lines, words and numbers, a writer of lines, and the kinds of
//! errors.
//!
//! The laws by which reading and validity agree stand in proofs/, once for all grammars.
#![tactic(auto)]

mod fault;
mod item_reader;
mod line_reader;
mod line_writer;
mod word_reader;

pub use fault::{Kind, LineFault, ReadError, TextFault};
pub use item_reader::{ItemReader, items};
pub use line_reader::{LineReader, read_text};
pub use line_writer::LineWriter;
pub use word_reader::{
    fault_if, has_word, known_below, known_word, limited_wide, limited_word, natural_in, number_in,
    version_line, wide_in, word,
};
