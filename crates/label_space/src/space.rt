ghost use Rattle.std.specs.Prelude.{◌≡◌, ◌<◌, ◌↔◌, IsTrue};
ghost use Rattle.label_space.specs.Rules.{Rules, Fits};
ghost use Rattle.label_space.specs.Laws.{IsLawful};

/// A space of labels: a root, its extensions over numbered choices, and which label makes which
/// superfluous.
///
/// Labels lie in cells, numbered from 0, so that a dominator is sought among few. Labels that do
/// not fit are none of the space, and no call but `fits` takes one.
pub trait Space {
    /// A label is copied freely: it should be small.
    type Label: Copy;

    /// What the space says of its labels.
    ghost rules: { Self → Rules Self.Label };

    /// Whether a value is a label of the space.
    fn fits(&self, l: &Self::Label) -> bool
        ensures { result ≡ (rules self.now).fits l.now };

    /// The label that every other is extended from. It fits.
    fn root(&self) -> Self::Label
        ensures { result ≡ (rules self.now).root };

    /// How many cells there are.
    fn cells(&self) -> u32
        ensures { result ≡ (rules self.now).cells };

    /// The cell of a label.
    fn cell(&self, l: &Self::Label) -> u32
        requires { Fits (rules self.now) l.now }
        ensures { result ≡ (rules self.now).cell l.now };

    /// How many choices a label has, numbered from 0.
    fn degree(&self, l: &Self::Label) -> u32
        requires { Fits (rules self.now) l.now }
        ensures { result ≡ (rules self.now).degree l.now };

    /// A number that is no greater at a dominator, as a cost or a resource that is used up.
    fn level(&self, l: &Self::Label) -> i64
        requires { Fits (rules self.now) l.now }
        ensures { result ≡ (rules self.now).level l.now };

    /// The label over a choice, or none where the choice is refused.
    fn extend(&self, l: &Self::Label, k: u32) -> Option<Self::Label>
        requires fits { Fits (rules self.now) l.now }
        requires within { k < (rules self.now).degree l.now }
        ensures { result ≡ (rules self.now).extend l.now k };

    /// Whether the first label makes the second superfluous.
    fn dominates(&self, a: &Self::Label, b: &Self::Label) -> bool
        requires first { Fits (rules self.now) a.now }
        requires second { Fits (rules self.now) b.now }
        ensures { result ≡ (rules self.now).dominates a.now b.now };

    /// Whether two labels are equal.
    fn same(&self, a: &Self::Label, b: &Self::Label) -> bool
        requires first { Fits (rules self.now) a.now }
        requires second { Fits (rules self.now) b.now }
        ensures { IsTrue result ↔ (a.now ≡ b.now) };

    ghost lawful: { (s : Self) → IsLawful (rules s) };
}
