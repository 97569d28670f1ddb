ghost use Rattle.std.specs.Prelude.{◌≡◌};
ghost use Rattle.route_texts.specs.Faults.{kind_number};

use path_graph::NoMemory;

/// The kinds of faults of a routing text, with their numbers.
#[derive(Clone, Copy, Debug, PartialEq, Eq)]
pub enum RouteKind {
    /// A missing or further word, an unknown line of a section, or a key line without colon.
    Word = 41,
    /// No number where one must stand.
    Number = 42,
    /// A number outside its limits.
    Range = 43,
    /// A key, a section or a node once more.
    Repeated = 44,
    /// A key, a section, a node line or the depot is missing.
    Missing = 45,
    /// Another type, or another type of distances.
    Type = 46,
    /// A 245th customer.
    TooMany = 47,
    /// The depot's demand is not 0, or a second depot.
    Depot = 48,
}

impl RouteKind {
    /// The number of the kind.
    pub fn number(self) -> u8
        ensures { result ≡ kind_number self }
    {
        self as u8
    }
}

/// The first fault of a text: its line, counted from 1, and its kind.
#[derive(Clone, Copy, Debug, PartialEq, Eq)]
pub struct RouteFault {
    pub line: u32,
    pub kind: RouteKind,
}

/// Why a text is not read.
#[derive(Clone, Copy, Debug, PartialEq, Eq)]
pub enum RouteError {
    Text(RouteFault),
    Memory,
}

/// Why a line is not read.
#[derive(Clone, Copy, Debug, PartialEq, Eq)]
pub enum LineFault {
    Fault(RouteKind),
    Memory,
}

impl From<NoMemory> for LineFault {
    ghost use Rattle.route_texts.specs.declared.fault.LineFault.TheVariants.{Memory};

    ghost from_gives = { λ _ e. e ≡ Memory };

    fn from(_error: NoMemory) -> LineFault {
        LineFault::Memory
    }
}
