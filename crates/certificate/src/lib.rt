//! Texts of certificates: reading and printing.
#![tactic(auto)]

mod cert;
mod cert_lines;
mod cert_print;
mod cert_reader;
mod draft;
mod label_print;
mod label_words;
mod limits;
mod line_kind;
mod meaning;
mod node_lines;
mod printed_laws;
mod proof_print;
mod proof_words;
mod set_words;
mod sizes;

pub use cert::{Cert, Goal, Node, NodeForm, Proof, Step, Trie};
pub use cert_print::write_cert;
pub use cert_reader::read_cert;
pub use printed_laws::printed_cert_laws;
