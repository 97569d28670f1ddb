ghost use Rattle.std.specs.Prelude.{◌≡◌, ◌<◌, length, IfOk, OnErr, OnOk, true};
ghost use Rattle.std.specs.Io.{WritesAtMost};
ghost use Rattle.std.specs.Io.KnownBytes.{WriteAppends};
ghost use Rattle.vrp_io.specs.Counts.{next_count, Kept, HasCause};

use crate::fault::Failed;
use crate::sink::Sink;
use std::io::Write;

/// A sink over any writer. Its count rises at each error of the writer, and at each write that
/// takes nothing of a piece that is not empty.
///
/// This is the trusted edge: that a real writer keeps the bytes that it takes is not proved.
#[derive(Drop)]
pub struct StdSink<W: Write> {
    writer: W,
    calls: u64,
    faults: u64,
}

impl<W: Write> StdSink<W> {
    /// A sink that appends to what the writer holds.
    pub fn new(writer: W) -> StdSink<W>
        ensures written { ⟦<StdSink<W> as Sink>⟧.written result ≡ W.contents writer }
        ensures faults { ⟦<StdSink<W> as Sink>⟧.faults result ≡ 0 }
        ensures calls { ⟦<StdSink<W> as Sink>⟧.calls result ≡ 0 }
    {
        StdSink {
            writer,
            calls: 0,
            faults: 0,
        }
    }
}

impl<W: Write> Sink for StdSink<W> {
    ghost written = { λ s. W.contents s.writer };

    ghost faults = { λ s. s.faults };

    ghost answers_each_fault = { true };

    ghost calls = { λ s. s.calls };

    fn write(&mut self, piece: &[u8]) -> Result<usize, Failed>
        ensures raised { OnErr result (⟦<StdSink<W> as Sink>⟧.faults self.new
            ≡ next_count (⟦<StdSink<W> as Sink>⟧.faults self.old)) }

        // What every sink promises.
        ensures bound { WritesAtMost result piece.now }
        ensures some { IfOk result (λ n. 0 < length piece.now → 0 < n) }
        ensures bytes { WriteAppends (⟦<StdSink<W> as Sink>⟧.written self.old)
            (⟦<StdSink<W> as Sink>⟧.written self.new) result piece.now }
        ensures cause { HasCause (⟦<StdSink<W> as Sink>⟧.faults self.old)
            (⟦<StdSink<W> as Sink>⟧.faults self.new) result }
        ensures kept { OnOk result (Kept true (⟦<StdSink<W> as Sink>⟧.faults self.old)
            (⟦<StdSink<W> as Sink>⟧.faults self.new)) }
        ensures counted { ⟦<StdSink<W> as Sink>⟧.calls self.new
            ≡ next_count (⟦<StdSink<W> as Sink>⟧.calls self.old) }
    {
        self.calls = self.calls.saturating_add(1);
        match self.writer.write(piece) {
            Ok(count) if count > 0 || piece.is_empty() => Ok(count),
            _ => {
                self.faults = self.faults.saturating_add(1);
                Err(Failed)
            }
        }
    }
}
