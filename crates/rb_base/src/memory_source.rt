// Sources in memory.

ghost use Rattle.std.specs.Prelude.{◌≡◌, ◌<◌, ◌≤◌, ◌-◌, false, [], length, min, drop, IfOk, OnOk};
ghost use Rattle.rb_base.specs.Sources.{new_source, read_fails, after_read, filled, buffer_after};

use crate::sinks::Failed;
use crate::sources::Source;
use rb_trees::{Seq, Word};
use std::marker::Model;

/// A source of bytes that it holds, of which chosen reads fail.
///
/// Whoever makes it lends it to the code that reads. It tells the bytes that are left. A read gives as many bytes as may be
/// given at once. Where the read is listed it counts a fault and gives nothing, and the source can be read again.
#[derive(Drop)]
pub struct MemorySource {
    bytes: Word,
    /// How many bytes were read.
    at: usize,
    reads: u64,
    failing: Seq<u64>,
    /// How many bytes a read gives at most: at least one.
    most: usize,
    faults: u64,
}

impl Model for MemorySource {
    ghost use Rattle.std.specs.Prelude.{◌<◌, ◌≤◌, length, drop};
    ghost use Rattle.rb_base.specs.Sources.{SourceInMemory};

    ghost Value = { SourceInMemory };

    ghost view = { λ it. record {
      left = drop it.at it.bytes;
      reads = it.reads;
      failing = it.failing;
      most = it.most;
      faults = it.faults;
    } };

    ghost invariant = { λ it. (it.at ≤ length it.bytes) × (0 < it.most) };
}

impl MemorySource {
    /// Nothing read yet. The reads whose numbers, counted from 1, are in `failing` will fail, and each read gives at most
    /// `most` bytes.
    pub fn make(bytes: Word, failing: Seq<u64>, most: usize) -> MemorySource
        requires { 0 < most }
        ensures { result ≡ new_source bytes failing most }
    {
        MemorySource {
            bytes,
            at: 0,
            reads: 0,
            failing,
            most,
            faults: 0,
        }
    }

    /// The bytes left.
    pub fn left(&self) -> &[u8]
        ensures { result.now ≡ self.now.left }
    {
        &self.bytes.as_slice()[self.at..]
    }
}

impl Source for MemorySource {
    ghost use Rattle.std.specs.Prelude.{Some};

    ghost told = { λ it. Some it.left };

    ghost faults = { λ it. it.faults };

    /// Fails exactly where the read's number is listed. Each call is numbered, whatever it answers.
    fn read(&mut self, into: &mut [u8]) -> Result<usize, Failed>
        requires { 0 < length into.old }
        ensures end { result ≡ Ok 0 → self.old.left ≡ [] }
        ensures count { IfOk result (λ count. count ≡ min (min (length self.old.left) self.old.most) (length into.old)) }
        ensures listed { OnOk result (read_fails self.old ≡ false) }
        ensures buffer { into.new ≡ buffer_after self.old.left result into.old }
        ensures after { self.new ≡ after_read self.old result }
    {
        self.reads = self.reads.saturating_add(1);
        if self.failing.as_slice().contains(&self.reads) {
            self.faults = self.faults.saturating_add(1);
            return Err(Failed);
        }
        let rest = &self.bytes.as_slice()[self.at..];
        let count = copy_front(rest, self.most, into);
        self.at += count;
        Ok(count)
    }
}

/// A source of bytes that it holds, of which no read fails.
///
/// A read gives as many bytes as its buffer takes. It tells the bytes that are left, and its count of faults is always 0.
#[derive(Drop)]
pub struct SteadySource {
    bytes: Word,
    /// How many bytes were read.
    at: usize,
}

impl Model for SteadySource {
    ghost use Rattle.std.specs.Prelude.{◌≤◌, ℕ, List, length, drop};

    ghost Value = { List ℕ };

    ghost view = { λ it. drop it.at it.bytes };

    ghost invariant = { λ it. it.at ≤ length it.bytes };
}

impl SteadySource {
    /// Nothing read yet.
    pub fn make(bytes: Word) -> SteadySource
        ensures { result ≡ bytes }
    {
        SteadySource { bytes, at: 0 }
    }
}

impl Source for SteadySource {
    ghost use Rattle.std.specs.Prelude.{Some};

    ghost told = { λ it. Some it };

    ghost faults = { λ it. 0 };

    fn read(&mut self, into: &mut [u8]) -> Result<usize, Failed>
        requires { 0 < length into.old }
        ensures count { result ≡ Ok (min (length self.old) (length into.old)) }
        ensures end { result ≡ Ok 0 → self.old ≡ [] }
        ensures buffer { into.new ≡ buffer_after self.old result into.old }
        ensures after { self.new ≡ drop (length into.old) self.old }
    {
        let rest = &self.bytes.as_slice()[self.at..];
        let count = copy_front(rest, usize::MAX, into);
        self.at += count;
        Ok(count)
    }
}

/// Copies as many bytes to the front of a buffer as there are, at most so many, and answers how many.
fn copy_front(bytes: &[u8], most: usize, into: &mut [u8]) -> usize
    ensures count { result ≡ min (min (length bytes.now) most) (length into.old) }
    ensures filled { into.new ≡ filled bytes.now result into.old }
{
    let count = bytes.len().min(most).min(into.len());
    into[..count].copy_from_slice(&bytes[..count]);
    count
}
