use crate::label::Label;
use path_graph::List;

/// Which lists of labels a table has: those of partial walks alone; a half pair, with its threshold on the first main
/// resource; or both lists whole.
#[derive(Clone, Copy, Debug, PartialEq, Eq)]
pub enum Form {
    Full,
    Half(i32),
    Both,
}

/// The table of a graph in a proof: labels of partial walks and of rests, and the least that a walk costs, times 65,536.
#[derive(Debug, Drop)]
pub struct ProofTable {
    pub graph: u32,
    pub form: Form,
    pub least: Option<i128>,
    pub fore: List<Label>,
    pub back: List<Label>,
}
