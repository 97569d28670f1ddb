ghost use Rattle.std.specs.Prelude.{◌≡◌, ◌<◌, Bool, false, ℕ, List, Option, length, IfOk, OnOk, Result, ⊤};
ghost use Rattle.std.specs.Io.{WritesAtMost};
ghost use Rattle.std.specs.Io.KnownBytes.{WriteAppends};
ghost use Rattle.vrp_io.specs.declared.fault.Failed.{Failed};
ghost use Rattle.vrp_io.specs.Counts.{next_count, Kept, HasCause};

use crate::fault::Failed;

/// A sink for bytes.
pub trait Sink {
    /// The bytes that were written, where they are known.
    ghost written: { Self → Option (List ℕ) };
    /// How many writes have failed.
    ghost faults: { Self → ℕ };
    /// Whether each fault that is counted is answered. A sink may also count a fault, try again and then answer: of such
    /// a one it is false.
    ghost answers_each_fault: { Bool } = { false };
    /// How many writes were made.
    ghost calls: { Self → ℕ };
    /// What a write did, as far as it is known: the sink before, the piece, the answer, the
    /// sink after.
    ghost wrote: { Self → List ℕ → Result ℕ Failed → Self → Type 0 } = { λ _ _ _ _. ⊤ };

    /// Appends the first bytes of a piece, at least one of a piece that is not empty. A write that
    /// fails appends none.
    fn write(&mut self, piece: &[u8]) -> Result<usize, Failed>
        ensures bound { WritesAtMost result piece.now }
        ensures some { IfOk result (λ n. 0 < length piece.now → 0 < n) }
        ensures bytes { WriteAppends (written self.old) (written self.new) result piece.now }
        ensures cause { HasCause (faults self.old) (faults self.new) result }
        ensures kept { OnOk result (Kept answers_each_fault (faults self.old) (faults self.new)) }
        ensures counted { calls self.new ≡ next_count (calls self.old) }
        ensures told { wrote self.old piece.now result self.new };
}
