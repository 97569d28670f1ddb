use crate::cert::{Goal, Trie};
use label_rules::ProofTable;
use path_graph::{List, SetBits};
use rank1_cuts::Cut;
use route_model::{Plan, Split};

/// What the first line of a node says.
#[derive(Clone, Copy, Debug, PartialEq, Eq)]
pub enum Head {
    Split(Split),
    Close,
    Fix,
    List,
    CountSplit(u32, i64),
    CountClose,
    Point,
}

/// What a multiplier of a `mult` line stands on.
#[derive(Clone, Copy, Debug, PartialEq, Eq)]
pub enum MultKind {
    Var,
    Row,
    Set,
    Paths,
}

/// A `mult` line.
#[derive(Clone, Copy, Debug, PartialEq, Eq)]
pub struct MultLine {
    pub kind: MultKind,
    pub number: u32,
    pub value: i64,
}

/// A `cut` line: the multiplier of the cut, as its distance below 0, and the cut.
#[derive(Drop)]
pub struct CutLine {
    pub weight: u64,
    pub cut: Cut,
}

/// A `drop` line.
#[derive(Drop)]
pub struct DropLine {
    pub graph: u32,
    pub arcs: List<u32>,
}

/// A node as its lines say it so far. The last table and the last prefix tree are those whose lines are read.
#[derive(Drop)]
pub struct NodeDraft {
    pub head: Head,
    pub mults: List<MultLine>,
    pub cuts: List<CutLine>,
    pub near: List<(u32, u32, SetBits)>,
    pub tables: List<ProofTable>,
    pub drops: List<DropLine>,
    pub tries: List<Trie>,
}

/// What the lines of a certificate say so far: `opened` once the line of the version is read, `ended` once the end is. The
/// last node is the one whose lines are read. `lines` has the numbers of the lines of the claim, of each node and of the
/// end.
#[derive(Drop)]
pub struct CertDraft {
    pub goal: Option<Goal>,
    pub opened: bool,
    pub ended: bool,
    pub plan: Plan,
    pub nodes: List<NodeDraft>,
    pub lines: List<u32>,
}
