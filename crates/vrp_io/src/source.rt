ghost use Rattle.std.specs.Prelude.{◌≡◌, Bool, false, ℕ, List, Option, OnOk};
ghost use Rattle.std.specs.Io.{ReadsAtMost};
ghost use Rattle.std.specs.Io.KnownBytes.{ReadConsumes};
ghost use Rattle.vrp_io.specs.Counts.{next_count, Kept, HasCause};

use crate::fault::Failed;

/// A source of bytes.
pub trait Source {
    /// The bytes that are left, where they are known.
    ghost left: { Self → Option (List ℕ) };
    /// How many reads have failed.
    ghost faults: { Self → ℕ };
    /// Whether each fault that is counted is answered. A source may also count a fault, try again and then answer:
    /// of such a one it is false.
    ghost answers_each_fault: { Bool } = { false };
    /// How many reads were made.
    ghost calls: { Self → ℕ };

    /// Puts the next bytes in the front of the buffer. None for a buffer that is not empty means
    /// the end; a read that fails takes none.
    fn read(&mut self, buf: &mut [u8]) -> Result<usize, Failed>
        ensures bound { ReadsAtMost result buf.new }
        ensures bytes { ReadConsumes (left self.old) (left self.new) result buf.new }
        ensures cause { HasCause (faults self.old) (faults self.new) result }
        ensures kept { OnOk result (Kept answers_each_fault (faults self.old) (faults self.new)) }
        ensures counted { calls self.new ≡ next_count (calls self.old) };
}
