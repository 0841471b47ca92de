// What a crash may leave of a disk in the midst of an append, and how many requests it stands for.

ghost use Rattle.rb_session.specs.Answering.{IsTypedHost};

use crate::hosts::{counter, line_of};
use crate::payloads::expect_bytes;
use crate::rows::disk_of;
use rb_disk::MemoryDisk;
use rb_exec::Host;
use rb_journal::Journal;
use rb_trees::Word;
use std::alloc::Global;
use std::test::Fail;

/// What an append of `UP` writes behind its gate: the length, the payload and the next gate.
const RECORD: &[u8] =
    b"\x00\x00\x00\x20\x01\x00\x00\x00\x00\x01\x10\x00\x00\x00\x00\x00\x00\x00\x00\x26\x00\x00\x00\x00\x00\x00\x00\x00\x02up\x23\x00\x00\x00\x00\x00";

/// What a crash may tear in an append.
#[derive(Clone, Copy)]
pub enum Torn {
    /// The record behind the gate, which is closed.
    Record,
    /// The gate before the record.
    Gate,
}

/// Fails where a disk isn't opened; the host then has performed what it keeps.
fn expect_opened(alloc: Global, disk: MemoryDisk, host: &mut Host) -> Result<(), Fail>
    requires { IsTypedHost host.old }
{
    match Journal::open(alloc, disk, host) {
        Ok(_) => Ok(()),
        Err(stopped) => Err(Fail::new(format_args!("{}", stopped.stop))),
    }
}

/// The line of a host that has performed what a disk keeps.
fn line_after(alloc: Global, disk: MemoryDisk) -> Result<Word, Fail> {
    let mut host = counter(alloc)?;
    expect_opened(alloc, disk, &mut host)?;
    line_of(alloc, &host)
}

/// Fails where bytes don't stand for so many requests.
fn expect_count(alloc: Global, bytes: &[u8], count: u8) -> Result<(), Fail> {
    let line = line_after(alloc, disk_of(alloc, bytes, &[])?)?;
    let want = format!(in alloc; "object 0: Counter {{ count = {count}; }}\n")?;
    expect_bytes(line.as_slice(), want.as_bytes())
}

/// Fails where a front of a record isn't passed over, whether the file ends there or goes on with bytes of 1.
fn expect_front(alloc: Global, base: &[u8], front: &[u8], before: u8) -> Result<(), Fail> {
    let mut image = Vec::from_slice(alloc, base)?;
    image.extend_from_slice(front)?;
    expect_count(alloc, image.as_slice(), before)?;
    image.resize(base.len().saturating_add(RECORD.len()), 1)?;
    expect_count(alloc, image.as_slice(), before)
}

/// Fails where some front of the record behind a gate isn't passed over.
fn expect_fronts(alloc: Global, bytes: &[u8], gate: usize, before: u8) -> Result<(), Fail> {
    if gate >= bytes.len() {
        return Err(Fail::new("the disk has too few bytes"));
    }
    for front in 0..=RECORD.len() {
        expect_front(alloc, &bytes[..gate + 1], &RECORD[..front], before)?;
    }
    Ok(())
}

/// Fails where a gate of this value isn't open at 1, with one request more, and closed otherwise.
fn expect_gate(
    alloc: Global,
    bytes: &[u8],
    gate: usize,
    before: u8,
    value: u8,
) -> Result<(), Fail> {
    let mut image = Vec::from_slice(alloc, bytes)?;
    if gate >= image.len() {
        return Err(Fail::new("the disk has too few bytes"));
    }
    image[gate] = value;
    let more = if value == 1 { 1 } else { 0 };
    expect_count(alloc, image.as_slice(), before.saturating_add(more))
}

/// Fails where a gate of some value isn't open at 1, with one request more, and closed otherwise.
fn expect_gates(alloc: Global, bytes: &[u8], gate: usize, before: u8) -> Result<(), Fail> {
    for value in 0..=255 {
        expect_gate(alloc, bytes, gate, before, value)?;
    }
    Ok(())
}

/// Fails where an image of a disk doesn't stand for the requests that were kept before an append, or for one more where its
/// gate is open.
pub fn expect_images(alloc: Global, bytes: &[u8], before: u8, torn: Torn) -> Result<(), Fail> {
    let gate = 4 + before as usize * RECORD.len();
    match torn {
        Torn::Record => expect_fronts(alloc, bytes, gate, before),
        Torn::Gate => expect_gates(alloc, bytes, gate, before),
    }
}
