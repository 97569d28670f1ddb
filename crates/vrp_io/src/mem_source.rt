ghost use Rattle.std.specs.Prelude.{◌≡◌, ◌<◌, min, length, take, Some, IfOk, OnOk, true};
ghost use Rattle.std.specs.Io.{ReadsAtMost};
ghost use Rattle.std.specs.Io.KnownBytes.{ReadConsumes};
ghost use Rattle.vrp_io.specs.Counts.{next_count, Kept, HasCause};
ghost use Rattle.vrp_io.specs.Memory.{new_source, ReadsMemory};

use crate::fault::Failed;
use crate::numbers::is_failing;
use crate::source::Source;
use path_graph::NoMemory;
use std::alloc::Global;
use std::marker::Model;

/// A source over bytes in memory, some of whose reads fail.
#[derive(Drop)]
pub struct MemSource {
    bytes: Vec<u8>,
    at: usize,
    piece: u32,
    failing: Vec<u32>,
    calls: u64,
    faults: u64,
}

impl Model for MemSource {
    ghost use Rattle.std.specs.Prelude.{◌<◌, ◌≤◌, drop, vec_len};
    ghost use Rattle.vrp_io.specs.Memory.{SourceParts};

    ghost Value = { SourceParts };

    ghost view = { λ s. record {
      left = drop s.at s.bytes.items;
      piece = s.piece;
      failing = s.failing.items;
      calls = s.calls;
      faults = s.faults;
    } };

    ghost invariant = { λ s. (s.at ≤ vec_len s.bytes) × (0 < s.piece) };
}

impl MemSource {
    /// A source of these bytes. A read gives at most a piece, and the reads with these numbers,
    /// from 1, fail.
    pub fn new(
        alloc: Global,
        bytes: &[u8],
        piece: u32,
        failing: &[u32],
    ) -> Result<MemSource, NoMemory>
        requires { 0 < piece }
        ensures { IfOk result (λ source. source ≡ new_source bytes.now piece failing.now) }
    {
        let bytes = Vec::from_slice(alloc, bytes)?;
        let failing = Vec::from_slice(alloc, failing)?;
        Ok(MemSource {
            bytes,
            at: 0,
            piece,
            failing,
            calls: 0,
            faults: 0,
        })
    }
}

/// Copies the first bytes to the front of a buffer, as many as the piece and both allow.
fn give(bytes: &[u8], piece: usize, buf: &mut [u8]) -> usize
    ensures count { result ≡ min piece (min (length buf.old) (length bytes.now)) }
    ensures copied { take result buf.new ≡ take result bytes.now }
{
    let count = piece.min(buf.len().min(bytes.len()));
    buf[..count].copy_from_slice(&bytes[..count]);
    count
}

impl Source for MemSource {
    ghost left = { λ s. Some s.left };

    ghost faults = { λ s. s.faults };

    ghost answers_each_fault = { true };

    ghost calls = { λ s. s.calls };

    fn read(&mut self, buf: &mut [u8]) -> Result<usize, Failed>
        ensures exact { ReadsMemory self.old self.new buf.new result }

        // What every source promises.
        ensures bound { ReadsAtMost result buf.new }
        ensures bytes { ReadConsumes (Some self.old.left) (Some self.new.left) result buf.new }
        ensures cause { HasCause self.old.faults self.new.faults result }
        ensures kept { OnOk result (Kept true self.old.faults self.new.faults) }
        ensures counted { self.new.calls ≡ next_count self.old.calls }
    {
        self.calls = self.calls.saturating_add(1);
        if is_failing(&self.failing, self.calls) {
            self.faults = self.faults.saturating_add(1);
            return Err(Failed);
        }
        let count = give(&self.bytes[self.at..], self.piece as usize, buf);
        self.at += count;
        Ok(count)
    }
}
