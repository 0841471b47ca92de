// What the bytes of a disk are opened as.

ghost use Rattle.std.specs.Prelude.{◌≡◌, IfOk};
ghost use Rattle.rb_disk.specs.MemoryDisks.{new_disk};
ghost use Rattle.rb_session.specs.Answering.{IsTypedHost};

use crate::hosts::counter;
use crate::payloads::{EMPTY, expect_bytes, expect_payload};
use rb_disk::MemoryDisk;
use rb_exec::Host;
use rb_journal::{Journal, JournalStop};
use rb_trees::{Memory, Seq, Word};
use std::alloc::Global;
use std::test::*;

/// The bytes of a disk and its failing calls; and what is wanted: the bytes after an append of the empty script, or the words of
/// the stop.
type Row = (&'static [u8], &'static [u64], &'static [u8]);

/// A disk of these bytes, of which these calls fail.
pub fn disk_of(alloc: Global, bytes: &[u8], failing: &[u64]) -> Result<MemoryDisk, Memory>
    ensures { IfOk result (λ disk. disk ≡ new_disk bytes.now failing.now) }
{
    let bytes = Seq::from_slice(alloc, bytes)?;
    MemoryDisk::make(alloc, bytes, Seq::from_slice(alloc, failing)?)
}

/// The bytes of a journal's disk after an append of the empty script.
fn appended(alloc: Global, journal: Journal<MemoryDisk>) -> Result<Word, Fail> {
    let mut journal = journal;
    expect_payload(alloc, EMPTY)?;
    journal.append(EMPTY)?;
    let disk = journal.into_disk();
    Ok(Seq::from_slice(alloc, disk.bytes())?)
}

/// The words of a stop.
fn words_of(alloc: Global, stop: &JournalStop) -> Result<Word, Fail> {
    let words = format!(in alloc; "{stop}")?;
    Ok(Seq::from_slice(alloc, words.as_bytes())?)
}

/// What a disk has after an append of the empty script, or why it isn't opened.
fn outcome(alloc: Global, disk: MemoryDisk, host: &mut Host) -> Result<Word, Fail>
    requires { IsTypedHost host.old }
{
    match Journal::open(alloc, disk, host) {
        Ok(journal) => appended(alloc, journal),
        Err(stopped) => words_of(alloc, &stopped.stop),
    }
}

/// Fails where a disk is opened otherwise than a row wants.
fn expect_row(alloc: Global, (bytes, failing, want): Row) -> Result<(), Fail> {
    let disk = disk_of(alloc, bytes, failing)?;
    let mut host = counter(alloc)?;
    let found = outcome(alloc, disk, &mut host)?;
    expect_bytes(found.as_slice(), want)
}

/// Fails where a disk is opened otherwise than its row wants.
fn expect_rows(alloc: Global, rows: &[Row]) -> Result<(), Fail> {
    for row in rows {
        expect_row(alloc, *row)?;
    }
    Ok(())
}

/// No record.
const NONE: &[u8] = b"RBJ\x01\x00";

/// One record of the empty script.
const ONE: &[u8] = b"RBJ\x01\x01\x00\x00\x00\x06\x01\x00\x00\x00\x00\x00\x00";

/// Two records of the empty script.
const TWO: &[u8] =
    b"RBJ\x01\x01\x00\x00\x00\x06\x01\x00\x00\x00\x00\x00\x01\x00\x00\x00\x06\x01\x00\x00\x00\x00\x00\x00";

/// One record of the empty script in version 2.
const OTHER: &[u8] = b"RBJ\x01\x01\x00\x00\x00\x04\x02\x00\x00\x00\x00";

/// The same, and one in version 1.
const OTHER_AND_ONE: &[u8] =
    b"RBJ\x01\x01\x00\x00\x00\x04\x02\x00\x00\x00\x01\x00\x00\x00\x06\x01\x00\x00\x00\x00\x00\x00";

/// The same, and two in version 1.
const OTHER_AND_TWO: &[u8] =
    b"RBJ\x01\x01\x00\x00\x00\x04\x02\x00\x00\x00\x01\x00\x00\x00\x06\x01\x00\x00\x00\x00\x00\x01\x00\x00\x00\x06\x01\x00\x00\x00\x00\x00\x00";

/// What disks are opened as.
const ROWS: [Row; 17] = [
    (NONE, &[], ONE),
    (ONE, &[], TWO),
    // A record may be in either version.
    (OTHER, &[], OTHER_AND_ONE),
    (OTHER_AND_ONE, &[], OTHER_AND_TWO),
    // A gate that isn't 1 is closed, whatever stands behind it.
    (
        b"RBJ\x01\x00\x00\x00\x00\x06\x01\x00\x00\x00\x00\x00\x00",
        &[],
        ONE,
    ),
    (
        b"RBJ\x01\x07\x00\x00\x00\x06\x01\x00\x00\x00\x00\x00\x00",
        &[],
        ONE,
    ),
    (b"RBJ\x01\x07\xff", &[], ONE),
    (b"", &[], b"not a journal"),
    (b"RBJ\x01", &[], b"not a journal"),
    (b"RBJ\x02\x00", &[], b"not a journal"),
    (b"RBJ\x01\x01\x00", &[], b"bad record 0"),
    // The next gate is lacking.
    (
        b"RBJ\x01\x01\x00\x00\x00\x06\x01\x00\x00\x00\x00\x00",
        &[],
        b"bad record 0",
    ),
    (
        b"RBJ\x01\x01\x00\x00\x00\x06\x01\x00\x00\x00\x00\x00\x01\x00\x00\x00\x06\x01\x00\x00\x00\x00\x00",
        &[],
        b"bad record 1",
    ),
    // The payload is refused, or longer than any.
    (b"RBJ\x01\x01\x00\x00\x00\x01\x02\x00", &[], b"bad record 0"),
    (b"RBJ\x01\x01\x01\x00\x00\x01\x01\x00", &[], b"bad record 0"),
    (ONE, &[1], b"a disk failed"),
    (ONE, &[4], b"a disk failed"),
];

#[test]
fn an_append_writes_a_record_between_two_gates(rt: HostRuntime) -> Result<(), Fail> {
    let disk = disk_of(rt.alloc(), b"", &[])?;
    let Ok(journal) = Journal::create(rt.alloc(), disk) else {
        return Err(Fail::new("the disk is empty"));
    };
    expect_bytes(appended(rt.alloc(), journal)?.as_slice(), ONE)
}

#[test]
fn disks_are_opened_as_what_they_hold(rt: HostRuntime) -> Result<(), Fail> {
    expect_rows(rt.alloc(), &ROWS)
}
