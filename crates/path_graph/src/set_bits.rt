ghost use Rattle.std.specs.Prelude.{◌≡◌, ◌↔◌, IsTrue, ◌<◌};
ghost use Rattle.path_graph.specs.SetBits.{has_set, HasNoMember, IsWith, IsMeet, IsSubset, IsWhole};

use crate::limits::MAX_SETS;

/// A set of packing sets, by number: bit `s % 64` of word `s / 64` stands for set `s`.
///
/// Contracts see it by its members, which are numbers below `MAX_SETS`. Each call looks at eight words at most.
#[derive(Clone, Copy, Debug, PartialEq, Eq)]
pub struct SetBits {
    pub bits: [u64; 8],
}

impl SetBits {
    /// The set with no member.
    pub fn empty() -> SetBits
        ensures members { HasNoMember result }
        ensures whole { IsWhole result }
    {
        SetBits { bits: [0; 8] }
    }

    /// Whether a number is a member. A number of `MAX_SETS` or more is a member of no set.
    pub fn has(&self, s: u16) -> bool
        ensures { result ≡ has_set self.now s }
    {
        s < MAX_SETS && self.bits[s as usize / 64] >> (s % 64) & 1 == 1
    }

    /// The set with one more member.
    pub fn with(&self, s: u16) -> SetBits
        requires { s < MAX_SETS }
        ensures members { IsWith self.now s result }
        ensures whole { IsWhole self.now → IsWhole result }
    {
        let mut more = *self;
        more.bits[s as usize / 64] |= 1 << (s % 64);
        more
    }

    /// The members of both sets.
    pub fn meet(&self, o: &SetBits) -> SetBits
        ensures members { IsMeet self.now o.now result }
        ensures whole { IsWhole result }
    {
        let mut bits = [0; 8];
        for k in 0..8 {
            bits[k] = self.bits[k] & o.bits[k];
        }
        SetBits { bits }
    }

    /// Whether each member is a member of the other set too.
    pub fn within(&self, o: &SetBits) -> bool
        ensures { IsTrue result ↔ IsSubset self.now o.now }
    {
        for k in 0..8 {
            let word = self.bits[k];
            if word & o.bits[k] != word {
                return false;
            }
        }
        true
    }
}
