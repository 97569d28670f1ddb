ghost use Rattle.std.specs.Prelude.{◌≡◌, OnErr, OnOk, true};
ghost use Rattle.std.specs.Io.{ReadsAtMost};
ghost use Rattle.std.specs.Io.KnownBytes.{ReadConsumes};
ghost use Rattle.vrp_io.specs.Counts.{next_count, Kept, HasCause};

use crate::fault::Failed;
use crate::source::Source;
use std::io::Read;

/// A source over any reader. Its count rises at each error of the reader.
///
/// This is the trusted edge: that a real reader gives the bytes that are there is not proved.
#[derive(Drop)]
pub struct StdSource<R: Read> {
    reader: R,
    calls: u64,
    faults: u64,
}

impl<R: Read> StdSource<R> {
    /// A source of what the reader has left.
    pub fn new(reader: R) -> StdSource<R>
        ensures left { ⟦<StdSource<R> as Source>⟧.left result ≡ R.remaining reader }
        ensures faults { ⟦<StdSource<R> as Source>⟧.faults result ≡ 0 }
        ensures calls { ⟦<StdSource<R> as Source>⟧.calls result ≡ 0 }
    {
        StdSource {
            reader,
            calls: 0,
            faults: 0,
        }
    }
}

impl<R: Read> Source for StdSource<R> {
    ghost left = { λ s. R.remaining s.reader };

    ghost faults = { λ s. s.faults };

    ghost answers_each_fault = { true };

    ghost calls = { λ s. s.calls };

    fn read(&mut self, buf: &mut [u8]) -> Result<usize, Failed>
        ensures raised { OnErr result (⟦<StdSource<R> as Source>⟧.faults self.new
            ≡ next_count (⟦<StdSource<R> as Source>⟧.faults self.old)) }

        // What every source promises.
        ensures bound { ReadsAtMost result buf.new }
        ensures bytes { ReadConsumes (⟦<StdSource<R> as Source>⟧.left self.old)
            (⟦<StdSource<R> as Source>⟧.left self.new) result buf.new }
        ensures cause { HasCause (⟦<StdSource<R> as Source>⟧.faults self.old)
            (⟦<StdSource<R> as Source>⟧.faults self.new) result }
        ensures kept { OnOk result (Kept true (⟦<StdSource<R> as Source>⟧.faults self.old)
            (⟦<StdSource<R> as Source>⟧.faults self.new)) }
        ensures counted { ⟦<StdSource<R> as Source>⟧.calls self.new
            ≡ next_count (⟦<StdSource<R> as Source>⟧.calls self.old) }
    {
        self.calls = self.calls.saturating_add(1);
        match self.reader.read(buf) {
            Ok(count) => Ok(count),
            Err(_) => {
                self.faults = self.faults.saturating_add(1);
                Err(Failed)
            }
        }
    }
}
