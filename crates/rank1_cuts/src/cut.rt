ghost use Rattle.std.specs.Prelude.{◌≡◌, IfOk};

use path_graph::{List, NoMemory, SetBits};
use std::alloc::Global;

/// A packing set of a cut, by number, with its numerator.
#[derive(Clone, Copy, Debug, PartialEq, Eq)]
pub struct CutSet {
    pub set: u16,
    pub num: u8,
}

/// A rank-1 cut: its denominator, its packing sets with their numerators, and its memory, which is a set of packing
/// sets.
///
/// A cut that fits has denominator 2 to 8 and 1 to 16 different sets, each with a numerator of 1 to the denominator
/// less 1. In a plan that visits no set twice, the visits add up to at most the sum of the numerators, and so the
/// coefficients to at most that sum over the denominator, rounded down.
///
/// Limited-memory rank-1 cuts are those of Pecin, Pessoa, Poggi, Uchoa and Santos (2017). Here the memory is written
/// as packing sets: a walk that visits a set outside the memory forgets what it has gathered for the cut.
#[derive(Debug, Drop)]
pub struct Cut {
    pub den: u8,
    pub sets: List<CutSet>,
    pub memory: SetBits,
}

/// Why a cut does not fit, in the order in which faults are looked for.
#[derive(Clone, Copy, Debug, PartialEq, Eq)]
pub enum CutFault {
    /// The denominator is not from 2 to 8.
    Denominator,
    /// There is no set.
    Empty,
    /// There are more than 16 sets.
    Long,
    /// The set at the first place whose set stands at an earlier place too.
    Repeated(u16),
    /// The set at the first place whose numerator is 0, or not below the denominator.
    Numerator(u16),
}

impl Cut {
    /// An equal cut.
    pub fn copy(&self, alloc: Global) -> Result<Cut, NoMemory>
        ensures { IfOk result (λ cut. cut ≡ self.now) }
    {
        let sets = self.sets.copy(alloc)?;
        Ok(Cut {
            den: self.den,
            sets,
            memory: self.memory,
        })
    }
}
