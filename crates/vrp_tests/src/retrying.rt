//! A source that counts a read that failed, and tries once more before it answers.

ghost use Rattle.std.specs.Prelude.{Some};

use vrp_io::{Failed, MemSource, Source};

/// Reads from memory. Where a read fails, it is counted and tried once more.
#[derive(Drop)]
pub struct Retrying {
    source: MemSource,
    faults: u64,
    calls: u64,
}

impl Retrying {
    pub fn new(source: MemSource) -> Retrying {
        Retrying {
            source,
            faults: 0,
            calls: 0,
        }
    }

    /// How many reads have failed.
    pub fn faults(&self) -> u64 {
        self.faults
    }
}

impl Source for Retrying {
    ghost left = { λ s. Some s.source.left };

    ghost faults = { λ s. s.faults };

    ghost calls = { λ s. s.calls };

    fn read(&mut self, buf: &mut [u8]) -> Result<usize, Failed> {
        self.calls = self.calls.saturating_add(1);
        if let Ok(count) = self.source.read(buf) {
            return Ok(count);
        }
        self.faults = self.faults.saturating_add(1);
        let again = self.source.read(buf);
        if again.is_err() {
            self.faults = self.faults.saturating_add(1);
        }
        again
    }
}
