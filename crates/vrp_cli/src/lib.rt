//! The program's one call: it reads a model, does what its command says, and writes the answer. `solve` finds a least plan and
//! writes its certificate, `print` prints the model, `eval` judges a plan, and `check` a certificate.
#![tactic(auto)]

mod answer;
mod check;
mod eval;
mod limits;
mod print;
mod run;
mod solve;
mod status;
mod texts;

pub use command_words::Command;
pub use limits::MAX_INPUT;
pub use run::run_vrp;
pub use status::{Kept, Status};
