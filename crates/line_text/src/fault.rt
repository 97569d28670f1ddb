ghost use Rattle.std.specs.Prelude.{◌≡◌};
ghost use Rattle.line_text.specs.Faults.{kind_number, kind_name};

use path_graph::NoMemory;
use std::alloc::AllocFailed;

/// The kinds of faults of a text, with their numbers.
#[derive(Clone, Copy, Debug, PartialEq, Eq)]
pub enum Kind {
    Version = 1,
    Word = 2,
    Number = 3,
    Range = 4,
    Order = 5,
    Unknown = 6,
    EndMissing = 7,
    AfterEnd = 8,
    Ends = 9,
    Window = 10,
    MainNegative = 11,
    FreeCycle = 12,
    Box = 13,
    CostRange = 14,
    TooMany = 15,
    Byte = 16,
}

impl Kind {
    /// The number of the kind.
    pub fn number(self) -> u8
        ensures { result ≡ kind_number self }
    {
        self as u8
    }

    /// The name of the kind.
    pub fn name(self) -> &'static str
        ensures { result.now ≡ kind_name self }
    {
        match self {
            Kind::Version => "Version",
            Kind::Word => "Word",
            Kind::Number => "Number",
            Kind::Range => "Range",
            Kind::Order => "Order",
            Kind::Unknown => "Unknown",
            Kind::EndMissing => "EndMissing",
            Kind::AfterEnd => "AfterEnd",
            Kind::Ends => "Ends",
            Kind::Window => "Window",
            Kind::MainNegative => "MainNegative",
            Kind::FreeCycle => "FreeCycle",
            Kind::Box => "Box",
            Kind::CostRange => "CostRange",
            Kind::TooMany => "TooMany",
            Kind::Byte => "Byte",
        }
    }
}

/// The first fault of a text: its line, counted from 1, and its kind.
#[derive(Clone, Copy, Debug, PartialEq, Eq)]
pub struct TextFault {
    pub line: u32,
    pub kind: Kind,
}

/// Why a text is not read.
#[derive(Clone, Copy, Debug, PartialEq, Eq)]
pub enum ReadError {
    Text(TextFault),
    Memory,
}

impl From<NoMemory> for ReadError {
    ghost use Rattle.line_text.specs.declared.fault.ReadError.TheVariants.{Memory};

    ghost from_gives = { λ _ e. e ≡ Memory };

    fn from(_error: NoMemory) -> ReadError {
        ReadError::Memory
    }
}

/// Why a line is not read.
#[derive(Clone, Copy, Debug, PartialEq, Eq)]
pub enum LineFault {
    Fault(Kind),
    Memory,
}

impl From<NoMemory> for LineFault {
    ghost use Rattle.line_text.specs.declared.fault.LineFault.TheVariants.{Memory};

    ghost from_gives = { λ _ e. e ≡ Memory };

    fn from(_error: NoMemory) -> LineFault {
        LineFault::Memory
    }
}

impl<T: Drop> From<AllocFailed<T>> for LineFault {
    ghost use Rattle.line_text.specs.declared.fault.LineFault.TheVariants.{Memory};

    ghost from_gives = { λ _ e. e ≡ Memory };

    fn from(_error: AllocFailed<T>) -> LineFault {
        LineFault::Memory
    }
}
