//! The words of the program: which command they name, and with which limits.
#![tactic(auto)]

mod command;
mod options;
mod settings;

pub use command::{Command, command_of};
pub use options::{
    DEFAULT_LABELS, DEFAULT_NODES, DEFAULT_WORKERS, MOST_DIGITS, MOST_LABELS, MOST_NODES,
    MOST_WORKERS,
};
