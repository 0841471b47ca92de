// The calls that a disk in memory keeps, and what they do to its bytes.

ghost use Rattle.std.specs.Prelude.{◌≡◌, ◌∷◌, true, false, length, drop, take, min, IfOk, OnOk, OnErr, if◌then◌else◌};
ghost use Rattle.rb_disk.specs.Images.{put, wrote};
ghost use Rattle.rb_disk.specs.MemoryDisks.{call_of, latest_first};

use rb_trees::{Memory, Seq, Word};
use std::alloc::Global;

/// A call of a disk in memory.
#[derive(Drop)]
pub enum DiskCall {
    /// A write of these bytes at an offset.
    Wrote(u64, Word),
    /// A write of so many bytes at an offset, which failed.
    Tore(u64, usize),
    /// A sync that succeeded.
    Synced,
    /// Any other call.
    Looked,
}

/// The bytes with these at an offset, and zeros between the old end and the offset.
pub fn put(alloc: Global, at: u64, bytes: &[u8], old: &[u8]) -> Result<Vec<u8>, Memory>
    ensures { IfOk result (λ new. new.items ≡ put at bytes.now old.now) }
{
    if bytes.is_empty() {
        return Ok(Vec::from_slice(alloc, old)?);
    }
    let at = at as usize;
    let mut new = Vec::from_slice(alloc, &old[..at.min(old.len())])?;
    if at > old.len() {
        new.resize(at, 0)?;
    }
    new.extend_from_slice(bytes)?;
    if new.len() < old.len() {
        new.extend_from_slice(&old[new.len()..])?;
    }
    Ok(new)
}

/// Keeps a call, where memory is there for it, and says whether it was.
pub fn note(calls: &mut Vec<DiskCall>, call: DiskCall) -> bool
    ensures { latest_first calls.new.items ≡ (if result then call_of call ∷ latest_first calls.old.items else latest_first calls.old.items) }
{
    calls.push(call).is_ok()
}

/// Writes bytes at an offset, and keeps the call. An `Err` changes nothing.
pub fn write_at(
    alloc: Global,
    at: u64,
    bytes: &[u8],
    content: &mut Vec<u8>,
    calls: &mut Vec<DiskCall>,
) -> Result<(), Memory>
    ensures bytes { OnOk result (content.new.items ≡ put at bytes.now content.old.items) }
    ensures noted { OnOk result (latest_first calls.new.items ≡ wrote at bytes.now ∷ latest_first calls.old.items) }
    ensures bytes_err { OnErr result (content.new.items ≡ content.old.items) }
    ensures noted_err { OnErr result (latest_first calls.new.items ≡ latest_first calls.old.items) }
{
    let next = put(alloc, at, bytes, content.as_slice())?;
    let kept = Seq::from_slice(alloc, bytes)?;
    if !note(calls, DiskCall::Wrote(at, kept)) {
        return Err(Memory);
    }
    *content = next;
    Ok(())
}
