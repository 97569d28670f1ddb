ghost use Rattle.std.specs.Prelude.{◌≡◌, ◌<◌, length, Some, IfOk, OnOk, true};
ghost use Rattle.std.specs.Io.{WritesAtMost};
ghost use Rattle.std.specs.Io.KnownBytes.{WriteAppends};
ghost use Rattle.vrp_io.specs.Counts.{next_count, Kept, HasCause};
ghost use Rattle.vrp_io.specs.Memory.{new_sink, WritesMemory};

use crate::fault::Failed;
use crate::numbers::is_failing;
use crate::sink::Sink;
use path_graph::NoMemory;
use std::alloc::Global;
use std::marker::Model;

/// A sink in memory, some of whose writes fail. Its room is reserved when it is made.
#[derive(Drop)]
pub struct MemSink {
    bytes: Vec<u8>,
    room: u32,
    piece: u32,
    failing: Vec<u32>,
    calls: u64,
    faults: u64,
}

impl Model for MemSink {
    ghost use Rattle.std.specs.Prelude.{◌<◌, ◌≤◌, ◌+◌, vec_len, vec_capacity};
    ghost use Rattle.vrp_io.specs.Memory.{SinkParts};

    ghost Value = { SinkParts };

    ghost view = { λ s. record {
      written = s.bytes.items;
      room = s.room;
      piece = s.piece;
      failing = s.failing.items;
      calls = s.calls;
      faults = s.faults;
    } };

    ghost invariant = { λ s. (vec_len s.bytes + s.room ≤ vec_capacity s.bytes) × (0 < s.piece) };
}

impl MemSink {
    /// An empty sink with room for so many bytes. A write takes at most a piece, and the writes
    /// with these numbers, from 1, fail.
    pub fn new(alloc: Global, room: u32, piece: u32, failing: &[u32]) -> Result<MemSink, NoMemory>
        requires { 0 < piece }
        ensures { IfOk result (λ sink. sink ≡ new_sink room piece failing.now) }
    {
        let bytes = Vec::with_capacity(alloc, room as usize)?;
        let failing = Vec::from_slice(alloc, failing)?;
        Ok(MemSink {
            bytes,
            room,
            piece,
            failing,
            calls: 0,
            faults: 0,
        })
    }

    /// The bytes that were written.
    pub fn written(&self) -> &[u8]
        ensures { result.now ≡ self.now.written }
    {
        self.bytes.as_slice()
    }
}

impl Sink for MemSink {
    ghost written = { λ s. Some s.written };

    ghost faults = { λ s. s.faults };

    ghost answers_each_fault = { true };

    ghost calls = { λ s. s.calls };

    ghost wrote = { λ s bytes r t. WritesMemory s bytes r t };

    fn write(&mut self, piece: &[u8]) -> Result<usize, Failed>
        ensures told { WritesMemory self.old piece.now result self.new }

        // What every sink promises.
        ensures bound { WritesAtMost result piece.now }
        ensures some { IfOk result (λ n. 0 < length piece.now → 0 < n) }
        ensures bytes { WriteAppends (Some self.old.written) (Some self.new.written)
            result piece.now }
        ensures cause { HasCause self.old.faults self.new.faults result }
        ensures kept { OnOk result (Kept true self.old.faults self.new.faults) }
        ensures counted { self.new.calls ≡ next_count self.old.calls }
    {
        self.calls = self.calls.saturating_add(1);
        if is_failing(&self.failing, self.calls) || (self.room == 0 && !piece.is_empty()) {
            self.faults = self.faults.saturating_add(1);
            return Err(Failed);
        }
        let count = piece.len().min(self.piece.min(self.room) as usize);
        self.bytes.extend_from_slice(&piece[..count]).unwrap();
        self.room -= count as u32;
        Ok(count)
    }
}
