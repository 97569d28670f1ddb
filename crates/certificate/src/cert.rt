use label_rules::ProofTable;
use path_graph::{List, SetBits};
use rank1_cuts::Cut;
use route_model::{Mult, Plan, Split};

/// What a certificate claims of a model: that no solution costs less than its plan, which costs this; or that there is no
/// solution.
#[derive(Clone, Copy, Debug, PartialEq, Eq)]
pub enum Goal {
    Optimal(i64),
    Infeasible,
}

/// A proof at a place: multipliers, at the scale of 65,536 to a unit of cost, among them one for each cut; near lists, each
/// with its graph and vertex, where a vertex that is not named has none; and a table of labels for each graph.
#[derive(Debug, Drop)]
pub struct Proof {
    pub mult: Mult,
    pub cuts: List<Cut>,
    pub near: List<(u32, u32, SetBits)>,
    pub tables: List<ProofTable>,
}

/// A node of a prefix tree: the child of a node over an arc. Node 0 is the empty prefix, and the k-th step, from 1, makes
/// node k.
#[derive(Clone, Copy, Debug, PartialEq, Eq)]
pub struct Step {
    pub parent: u32,
    pub arc: u32,
}

/// The prefixes of listed walks of a graph.
#[derive(Debug, Drop)]
pub struct Trie {
    pub graph: u32,
    pub steps: List<Step>,
}

/// What a node of a proof tree says.
#[derive(Debug, Drop)]
pub enum NodeForm {
    /// The place in two parts. Only a search that stops at a limit keeps a proof here.
    Split(Split, Option<Proof>),
    /// The place holds nothing better.
    Close(Proof),
    /// The place without these arcs, each with its graph.
    Fix(Proof, List<(u32, u32)>),
    /// The place by counts of the listed walks.
    List(Proof, List<Trie>),
    /// The count of a walk, by its number, in two parts: up to a number, and above it.
    CountSplit(u32, i64),
    /// The counts hold nothing better.
    CountClose(Mult),
    /// One plan is left.
    Point,
}

/// A node of a proof tree, with the number of its first line.
#[derive(Debug, Drop)]
pub struct Node {
    pub line: u32,
    pub form: NodeForm,
}

/// A certificate: its claim, a plan, and the nodes of its proof tree in preorder, with the numbers of the lines of the claim
/// and of the end.
#[derive(Debug, Drop)]
pub struct Cert {
    pub goal: Goal,
    pub goal_line: u32,
    pub end_line: u32,
    pub plan: Plan,
    pub nodes: List<Node>,
}
