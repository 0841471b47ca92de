// A sink in memory.

ghost use Rattle.std.specs.Prelude.{◌≡◌, ◌<◌, false, length, min, IfOk, OnOk};
ghost use Rattle.rb_base.specs.Sinks.{new_sink, fails_next, after_write};

use crate::sinks::{Failed, Sink};
use rb_trees::Seq;
use std::alloc::Global;
use std::marker::Model;

/// A sink that keeps what was written, of which chosen writes fail.
///
/// Whoever makes it lends it to the code that writes, and then looks at what was written. It tells
/// the bytes. A write takes as much of its piece as may be taken at once. Where the write is listed,
/// or no memory is left for the bytes, it counts a fault and takes nothing, and the sink can be
/// written to again.
#[derive(Drop)]
pub struct MemorySink {
    bytes: Vec<u8>,
    writes: u64,
    failing: Seq<u64>,
    /// How many bytes a write takes at most: at least one.
    most: usize,
    faults: u64,
}

impl Model for MemorySink {
    ghost use Rattle.std.specs.Prelude.{◌<◌};
    ghost use Rattle.rb_base.specs.Sinks.{SinkInMemory};

    ghost Value = { SinkInMemory };

    ghost view = { λ it. record {
      bytes = it.bytes.items;
      writes = it.writes;
      failing = it.failing;
      most = it.most;
      faults = it.faults;
    } };

    ghost invariant = { λ it. 0 < it.most };
}

impl MemorySink {
    /// Nothing written yet. The writes whose numbers, counted from 1, are in `failing` will fail,
    /// and each write takes at most `most` bytes.
    pub fn make(alloc: Global, failing: Seq<u64>, most: usize) -> MemorySink
        requires { 0 < most }
        ensures { result ≡ new_sink failing most }
    {
        MemorySink {
            bytes: Vec::new(alloc),
            writes: 0,
            failing,
            most,
            faults: 0,
        }
    }

    /// The bytes written so far.
    pub fn written(&self) -> &[u8]
        ensures { result.now ≡ self.now.bytes }
    {
        self.bytes.as_slice()
    }
}

impl Sink for MemorySink {
    ghost use Rattle.std.specs.Prelude.{Some};

    ghost told = { λ it. Some it.bytes };

    ghost faults = { λ it. it.faults };

    /// Fails where the write's number is listed, or where no memory is left for the bytes. Each
    /// call is numbered, whatever it answers.
    fn write(&mut self, piece: &[u8]) -> Result<usize, Failed>
        requires { 0 < length piece.now }
        ensures some { IfOk result (λ count. 0 < count) }
        ensures count { IfOk result (λ count. count ≡ min self.old.most (length piece.now)) }
        ensures listed { OnOk result (fails_next self.old ≡ false) }
        ensures after { self.new ≡ after_write self.old piece.now result }
    {
        self.writes = self.writes.saturating_add(1);
        let count = piece.len().min(self.most);
        if self.failing.as_slice().contains(&self.writes)
            || self.bytes.extend_from_slice(&piece[..count]).is_err()
        {
            self.faults = self.faults.saturating_add(1);
            return Err(Failed);
        }
        Ok(count)
    }
}
