ghost use Rattle.std.specs.Prelude.{◌≡◌};
ghost use Rattle.cert_check.specs.Kinds.{check_name, check_number};

use path_graph::NoMemory;
use proof_check::ProofError;

/// The kinds of faults of a certificate whose text is read, with their numbers.
#[derive(Clone, Copy, Debug, PartialEq, Eq)]
pub enum CheckKind {
    /// The plan is no solution.
    Plan = 21,
    /// The cost of the plan is not the one that is claimed.
    Cost = 22,
    /// A split of a quantity that is not there, or with a part that is empty; or a node that may not stand at its item.
    Split = 23,
    /// A cut that does not fit, or a multiplier that needs an open side.
    Side = 24,
    /// A graph without table, a table of another form, a threshold that is too low, or no label that dominates the root.
    Root = 25,
    /// A label outside the windows or states, or an extension without dominator.
    Cover = 26,
    /// A label at the sink, or a join, that costs less than the least.
    Sink = 27,
    /// The place, or the counts, are not closed.
    Bound = 28,
    /// A dropped arc that is not there, or over which some join is within the limit.
    Fix = 29,
    /// A prefix tree that is not complete.
    List = 30,
    /// A count that is no point, or a plan that is left and costs less.
    Point = 31,
    /// The nodes end before the tree does, or after it.
    Tail = 32,
}

impl CheckKind {
    /// The number of the kind.
    pub fn number(self) -> u8
        ensures { result ≡ check_number self }
    {
        self as u8
    }

    /// The name of the kind.
    pub fn name(self) -> &'static str
        ensures { result.now ≡ check_name self }
    {
        match self {
            CheckKind::Plan => "Plan",
            CheckKind::Cost => "Cost",
            CheckKind::Split => "Split",
            CheckKind::Side => "Side",
            CheckKind::Root => "Root",
            CheckKind::Cover => "Cover",
            CheckKind::Sink => "Sink",
            CheckKind::Bound => "Bound",
            CheckKind::Fix => "Fix",
            CheckKind::List => "List",
            CheckKind::Point => "Point",
            CheckKind::Tail => "Tail",
        }
    }
}

/// The first fault of a certificate: its line, counted from 1, and its kind.
#[derive(Clone, Copy, Debug, PartialEq, Eq)]
pub struct CheckFault {
    pub line: u32,
    pub kind: CheckKind,
}

/// Why a certificate is not accepted.
#[derive(Clone, Copy, Debug, PartialEq, Eq)]
pub enum CheckError {
    Refused(CheckFault),
    Memory,
}

/// Why a node does not stand.
#[derive(Clone, Copy, Debug, PartialEq, Eq)]
pub(crate) enum NodeError {
    Fault(CheckKind),
    Memory,
}

impl From<NoMemory> for NodeError {
    ghost use Rattle.cert_check.specs.declared.fault.NodeError.TheVariants.{Memory};

    ghost from_gives = { λ _ e. e ≡ Memory };

    fn from(_error: NoMemory) -> NodeError {
        NodeError::Memory
    }
}

impl From<NoMemory> for CheckError {
    ghost use Rattle.cert_check.specs.declared.fault.CheckError.TheVariants.{Memory};

    ghost from_gives = { λ _ e. e ≡ Memory };

    fn from(_error: NoMemory) -> CheckError {
        CheckError::Memory
    }
}

impl From<ProofError> for NodeError {
    ghost use Rattle.std.specs.Prelude.{◌≡◌};
    ghost use Rattle.cert_check.specs.Proofs.{error_of};

    ghost from_gives = { λ error e. e ≡ error_of error };

    fn from(error: ProofError) -> NodeError {
        match error {
            ProofError::Side => NodeError::Fault(CheckKind::Side),
            ProofError::Root => NodeError::Fault(CheckKind::Root),
            ProofError::Cover => NodeError::Fault(CheckKind::Cover),
            ProofError::Sink => NodeError::Fault(CheckKind::Sink),
            ProofError::Memory => NodeError::Memory,
        }
    }
}
