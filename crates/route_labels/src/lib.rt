//! The labels of partial walks and of rests in code: lawful spaces forward and backward, with cuts, memories and
//! thresholds, and the closed tables that are filled over them.
#![tactic(auto)]

mod arrival;
mod backward;
mod dominance;
mod extensions;
mod field;
mod filled;
mod forward;
mod limits;
mod roots;
mod tests_of;
mod weights;

pub use backward::Backward;
pub use field::Field;
pub use filled::{backward_table, closed_tables_are_closed_lists, forward_table, kept};
pub use forward::Forward;
pub use label_rules::{Form, Label, ProofTable};
pub use weights::{den_of, weight_if};
