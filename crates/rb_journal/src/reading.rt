// Reading a journal.

ghost use Rattle.std.specs.Prelude.{◌≡◌, ◌+◌, ◌^◌, ◌<◌, ◌≤◌, ◌++◌, ◌∷◌, [], ℕ, length, drop, OnOk, IfOk, IfErr, IfSome, IfNone};
ghost use Rattle.std.specs.Int.{w32, to_be_bytes};
ghost use Rattle.rb_base.specs.Devices.{device};
ghost use Rattle.rb_disk.specs.Images.{IsPart, IsPastEnd};
ghost use Rattle.rb_session.specs.Answering.{IsTypedHost};
ghost use Rattle.rb_journal.specs.Form.{head};
ghost use Rattle.rb_journal.specs.Replays.{Replays};
ghost use Rattle.rb_journal.specs.Readings.{Glances, GlancesOrStops, WhereLong, WhereTold, FindsHead, FindsSize, FindsPayload, FindsRecord, IsFaultOrMemory, IsOpeningStop, SyncsAndGlances, ReadsAs};

use crate::replays::replay;
use crate::stops::JournalStop;
use rb_base::Failed;
use rb_disk::Disk;
use rb_exec::Host;
use rb_trees::{Seq, Word};
use std::alloc::Global;

/// How many bytes a payload may have.
const MAX_PAYLOAD: u32 = 16_777_216;

/// Reads from an offset on until the buffer is full or the bytes end, and answers how many came.
fn fill<D: Disk>(disk: &mut D, at: u64, into: &mut [u8]) -> Result<usize, Failed>
    requires { at + length into.old < 2 ^ 64 }
    ensures within { IfOk result (λ count. count ≤ length into.new) }
    ensures part { IfOk result (λ count. IsPart at count into.new (D.told disk.old)) }
    ensures whole { IfOk result (λ count. count < length into.old → IsPastEnd (at + count) (D.told disk.old)) }
    ensures after { Glances result (device D.told D.faults disk.old) (device D.told D.faults disk.new) }
{
    let mut done = 0;
    'reads: while done < into.len() {
        let count = disk.read(at + done as u64, &mut into[done..])?;
        if count == 0 {
            return Ok(done);
        }
        done += count;
    }
    Ok(done)
}

/// The first gate of a journal: `None` where the bytes don't begin as one.
fn first_gate<D: Disk>(disk: &mut D) -> Result<Option<u8>, Failed>
    ensures found { IfOk result (λ found. WhereTold (D.told disk.old) (λ bytes. FindsHead bytes found)) }
    ensures after { Glances result (device D.told D.faults disk.old) (device D.told D.faults disk.new) }
{
    let mut front = [0; 5];
    let count = fill(disk, 0, &mut front)?;
    if count < 5 {
        return Ok(None);
    }
    Ok(gate_behind_head(&front))
}

/// The gate behind a head.
fn gate_behind_head(front: &[u8]) -> Option<u8>
    ensures found { IfSome result (λ gate. front.now ≡ head ++ gate ∷ []) }
    ensures none { IfNone result ((gate : ℕ) → front.now ≡ head ++ gate ∷ [] → ⊥) }
{
    match front {
        [0x52, 0x42, 0x4a, 1, gate] => Some(*gate),
        _ => None,
    }
}

/// The length that these bytes spell.
fn size_of(front: [u8; 4]) -> u32
    ensures { to_be_bytes w32 result ≡ front }
{
    u32::from_be_bytes(front)
}

/// The length of the record at an offset: `None` where no record stands there before the end.
fn size_at<D: Disk>(disk: &mut D, at: u64, end: u64) -> Result<Option<usize>, Failed>
    requires { at ≤ end }
    ensures found { IfOk result (λ found. WhereLong (D.told disk.old) end (λ bytes. FindsSize (drop at bytes) found)) }
    ensures room { IfOk result (λ found. IfSome found (λ size. (size ≤ 16777216) × (at + 4 + size < end))) }
    ensures after { Glances result (device D.told D.faults disk.old) (device D.told D.faults disk.new) }
{
    if end - at < 4 {
        return Ok(None);
    }
    let mut front = [0; 4];
    let count = fill(disk, at, &mut front)?;
    if count < 4 {
        return Ok(None);
    }
    let size = size_of(front);
    if size > MAX_PAYLOAD {
        return Ok(None);
    }
    if end - at - 4 <= size as u64 {
        return Ok(None);
    }
    Ok(Some(size as usize))
}

/// The payload of that size at an offset and the gate behind it: `None` where it is cut short or refused.
fn payload_at<D: Disk>(
    alloc: Global,
    disk: &mut D,
    at: u64,
    size: usize,
    host: &mut Host,
) -> Result<Option<(Word, u8)>, JournalStop>
    requires within { at + size + 1 < 2 ^ 64 }
    requires size { size ≤ 16777216 }
    requires typed { IsTypedHost host.old }
    ensures found { IfOk result (λ found. WhereTold (D.told disk.old) (λ bytes. FindsPayload (drop at bytes) size found)) }
    ensures size { IfOk result (λ found. IfSome found (λ x. length x.0 ≡ size)) }
    ensures performs { IfOk result (λ found. IfSome found (λ x. Replays host.old x.0 host.new)) }
    ensures typed { OnOk result (IsTypedHost host.new) }
    ensures service { host.new.service ≡ host.old.service }
    ensures after { GlancesOrStops result (device D.told D.faults disk.old) (device D.told D.faults disk.new) }
    ensures stops { IfErr result IsFaultOrMemory }
{
    let mut text = vec![in alloc; 0; size + 1]?;
    let count = fill(disk, at, text.as_mut_slice())?;
    if count <= size {
        return Ok(None);
    }
    let gate = text[size];
    text.truncate(size);
    if !replay(alloc, host, text.as_slice())? {
        return Ok(None);
    }
    Ok(Some((Seq::from_vec(text), gate)))
}

/// The payload of the record at an offset, and its next gate: `None` where no record stands there before the end.
fn record_at<D: Disk>(
    alloc: Global,
    disk: &mut D,
    at: u64,
    end: u64,
    host: &mut Host,
) -> Result<Option<(Word, u8)>, JournalStop>
    requires end { at ≤ end }
    requires typed { IsTypedHost host.old }
    ensures found { IfOk result (λ found. WhereLong (D.told disk.old) end (λ bytes. FindsRecord (drop at bytes) found)) }
    ensures room { IfOk result (λ found. IfSome found (λ x. at + 4 + length x.0 < end)) }
    ensures performs { IfOk result (λ found. IfSome found (λ x. Replays host.old x.0 host.new)) }
    ensures typed { OnOk result (IsTypedHost host.new) }
    ensures service { host.new.service ≡ host.old.service }
    ensures after { GlancesOrStops result (device D.told D.faults disk.old) (device D.told D.faults disk.new) }
    ensures stops { IfErr result IsFaultOrMemory }
{
    match size_at(disk, at, end)? {
        None => Ok(None),
        Some(size) => payload_at(alloc, disk, at + 4, size, host),
    }
}

/// The offset of the gate behind the records of a journal, whose payloads are performed.
fn read_records<D: Disk>(
    alloc: Global,
    disk: &mut D,
    end: u64,
    host: &mut Host,
) -> Result<u64, JournalStop>
    requires { IsTypedHost host.old }
    ensures read { WhereLong (D.told disk.old) end (λ bytes. ReadsAs bytes host.old host.new result) }
    ensures typed { OnOk result (IsTypedHost host.new) }
    ensures service { host.new.service ≡ host.old.service }
    ensures after { GlancesOrStops result (device D.told D.faults disk.old) (device D.told D.faults disk.new) }
    ensures stops { IfErr result IsOpeningStop }
{
    if end < 5 {
        return Err(JournalStop::NotAJournal);
    }
    let Some(first) = first_gate(disk)? else {
        return Err(JournalStop::NotAJournal);
    };
    let mut gate = first;
    let mut at = 4;
    let mut count = 0;
    'records: while gate == 1 {
        let Some((payload, next)) = record_at(alloc, disk, at + 1, end, host)? else {
            return Err(JournalStop::BadRecord(count));
        };
        at += 5 + payload.len() as u64;
        count += 1;
        gate = next;
    }
    Ok(at)
}

/// Syncs the disk, reads its journal, performs the payloads, and answers the offset of the gate behind them. It writes
/// nothing.
pub fn read_journal<D: Disk>(
    alloc: Global,
    disk: &mut D,
    host: &mut Host,
) -> Result<u64, JournalStop>
    requires { IsTypedHost host.old }
    ensures read { WhereTold (D.told disk.old) (λ bytes. ReadsAs bytes host.old host.new result) }
    ensures typed { OnOk result (IsTypedHost host.new) }
    ensures service { host.new.service ≡ host.old.service }
    ensures after { SyncsAndGlances result (device D.told D.faults disk.old) (device D.told D.faults disk.new) }
    ensures stops { IfErr result IsOpeningStop }
{
    disk.sync()?;
    let end = disk.len()?;
    read_records(alloc, disk, end, host)
}
