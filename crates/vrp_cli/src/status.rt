use certificate::Node;
use path_graph::List;
use solve_run::{Best, LabelWall};

/// What a run keeps of a limit that the search met: why the labels were not enough; or the nodes of its tree (an open place has
/// the line 0) with the best plan that was found.
#[derive(Drop)]
pub enum Kept {
    Nothing,
    Label(LabelWall),
    Nodes(List<Node>, Option<Best>),
}

/// How a run ended: the number that the program ends with, and what is kept of a limit.
///
/// 0 optimal, printed, fine or accepted, 1 infeasible, 2 refused words, 3 refused model, 4 refused paths, plan or certificate,
/// 5 limit of labels, 6 limit of nodes, 7 fault of reading, 8 fault of writing, 9 out of memory, 10 input too long.
#[derive(Drop)]
pub struct Status {
    pub number: u8,
    pub kept: Kept,
}
