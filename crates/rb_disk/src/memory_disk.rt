// A disk in memory.

ghost use Rattle.std.specs.Prelude.{◌==◌, not, ◌≡◌, ◌-◌, false, length, take, drop, min, IfOk, OnOk};
ghost use Rattle.rb_disk.specs.Images.{shown, Looks, Writes, Syncs};
ghost use Rattle.rb_disk.specs.MemoryStores.{reopened_disk};
ghost use Rattle.rb_disk.specs.MemoryDisks.{new_disk, seen_device, fails_next, CountsCall};

use crate::disk::Disk;
use crate::disk_calls::{DiskCall, note, write_at};
use rb_base::Failed;
use rb_trees::{Memory, Seq, Word};
use std::alloc::Global;
use std::marker::Model;

/// A disk that holds its bytes in memory, of which chosen calls fail.
///
/// It tells the record of all its calls. A call that is listed, or that finds no memory for itself, counts a fault and changes
/// no byte that a read gives, and the disk can be used again.
#[derive(Drop)]
pub struct MemoryDisk {
    alloc: Global,
    /// The bytes that it held at first.
    first: Word,
    /// The bytes that a read gives.
    bytes: Vec<u8>,
    /// The calls, the first of them first.
    calls: Vec<DiskCall>,
    number: u64,
    failing: Seq<u64>,
    faults: u64,
}

impl Model for MemoryDisk {
    ghost use Rattle.std.specs.Prelude.{◌≡◌};
    ghost use Rattle.rb_disk.specs.Images.{read_after};
    ghost use Rattle.rb_disk.specs.MemoryDisks.{DiskInMemory, latest_first};

    ghost Value = { DiskInMemory };

    ghost view = { λ it. record {
      told = record { first = it.first; calls = latest_first it.calls.items };
      calls = it.number;
      failing = it.failing;
      faults = it.faults;
    } };

    ghost invariant = { λ it. it.bytes.items ≡ read_after it.first (latest_first it.calls.items) };
}

impl MemoryDisk {
    /// No call made yet, and all of the bytes kept. The calls whose numbers, counted from 1, are in `failing` will fail.
    pub fn make(alloc: Global, bytes: Word, failing: Seq<u64>) -> Result<MemoryDisk, Memory>
        ensures { IfOk result (λ disk. disk ≡ new_disk bytes failing) }
    {
        let first = Seq::from_slice(alloc, bytes.as_slice())?;
        Ok(MemoryDisk {
            alloc,
            first,
            bytes: bytes.into_vec(),
            calls: Vec::new(alloc),
            number: 0,
            failing,
            faults: 0,
        })
    }

    /// The bytes that a read gives.
    pub fn bytes(&self) -> &[u8]
        ensures { result.now ≡ shown self.now.told }
    {
        self.bytes.as_slice()
    }

    /// Whether a call failed since the disk was made or opened.
    pub fn has_failed(&self) -> bool
        ensures { result ≡ not (self.now.faults == 0) }
    {
        self.faults != 0
    }

    /// The same disk, of which no call failed since now.
    pub(crate) fn reopen(self) -> MemoryDisk
        ensures { result ≡ reopened_disk self }
    {
        let mut disk = self;
        disk.faults = 0;
        disk
    }
}

impl Disk for MemoryDisk {
    ghost use Rattle.std.specs.Prelude.{Some};

    ghost told = { λ it. Some it.told };

    ghost faults = { λ it. it.faults };

    /// Fails where the call is listed, or finds no memory for itself. Each call is numbered, whatever it answers.
    fn len(&mut self) -> Result<u64, Failed>
        ensures length { IfOk result (λ n. n ≡ length (shown self.old.told)) }
        ensures listed { OnOk result (fails_next self.old ≡ false) }
        ensures counted { CountsCall self.old self.new }
        ensures after { Looks result (seen_device self.old) (seen_device self.new) }
    {
        self.number = self.number.saturating_add(1);
        let listed = self.failing.as_slice().contains(&self.number);
        let noted = note(&mut self.calls, DiskCall::Looked);
        if listed || !noted {
            self.faults = self.faults.saturating_add(1);
            return Err(Failed);
        }
        Ok(self.bytes.len() as u64)
    }

    fn read(&mut self, at: u64, into: &mut [u8]) -> Result<usize, Failed>
        ensures count { IfOk result (λ count. count ≡ min (length (shown self.old.told) - at) (length into.old)) }
        ensures part { IfOk result (λ count. take count into.new ≡ take count (drop at (shown self.old.told))) }
        ensures listed { OnOk result (fails_next self.old ≡ false) }
        ensures counted { CountsCall self.old self.new }
        ensures after { Looks result (seen_device self.old) (seen_device self.new) }
    {
        self.number = self.number.saturating_add(1);
        let listed = self.failing.as_slice().contains(&self.number);
        let noted = note(&mut self.calls, DiskCall::Looked);
        if listed || !noted {
            self.faults = self.faults.saturating_add(1);
            return Err(Failed);
        }
        Ok(copy_part(self.bytes.as_slice(), at, into))
    }

    fn write(&mut self, at: u64, bytes: &[u8]) -> Result<(), Failed>
        ensures listed { OnOk result (fails_next self.old ≡ false) }
        ensures counted { CountsCall self.old self.new }
        ensures after { Writes at bytes.now result (seen_device self.old) (seen_device self.new) }
    {
        self.number = self.number.saturating_add(1);
        if self.failing.as_slice().contains(&self.number) {
            note(&mut self.calls, DiskCall::Tore(at, bytes.len()));
            self.faults = self.faults.saturating_add(1);
            return Err(Failed);
        }
        if write_at(self.alloc, at, bytes, &mut self.bytes, &mut self.calls).is_err() {
            self.faults = self.faults.saturating_add(1);
            return Err(Failed);
        }
        Ok(())
    }

    fn sync(&mut self) -> Result<(), Failed>
        ensures listed { OnOk result (fails_next self.old ≡ false) }
        ensures counted { CountsCall self.old self.new }
        ensures after { Syncs result (seen_device self.old) (seen_device self.new) }
    {
        self.number = self.number.saturating_add(1);
        if self.failing.as_slice().contains(&self.number) {
            note(&mut self.calls, DiskCall::Looked);
            self.faults = self.faults.saturating_add(1);
            return Err(Failed);
        }
        if !note(&mut self.calls, DiskCall::Synced) {
            self.faults = self.faults.saturating_add(1);
            return Err(Failed);
        }
        Ok(())
    }
}

/// Copies the bytes from an offset on to the front of a buffer, as many as there are and fit, and answers how many.
fn copy_part(bytes: &[u8], at: u64, into: &mut [u8]) -> usize
    ensures count { result ≡ min (length bytes.now - at) (length into.old) }
    ensures part { take result into.new ≡ take result (drop at bytes.now) }
{
    let at = at as usize;
    if at >= bytes.len() {
        return 0;
    }
    let rest = &bytes[at..];
    let count = rest.len().min(into.len());
    into[..count].copy_from_slice(&rest[..count]);
    count
}
