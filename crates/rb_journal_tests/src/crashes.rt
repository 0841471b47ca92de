// A stop at each call of the disk in a journal of two appends, and what a crash then leaves.

use crate::images::{Torn, expect_images};
use crate::payloads::{UP, expect_payload};
use crate::rows::disk_of;
use rb_disk::MemoryDisk;
use rb_journal::{Journal, JournalStop};
use std::alloc::Global;
use std::test::*;

/// The call of the disk that fails, the answers to two appends, how many requests were kept before the one that stops, and
/// what of it a crash may tear.
type Row = (u64, [u8; 2], u8, Torn);

/// Each call of two appends, and then none.
const ROWS: [Row; 9] = [
    // The record, its sync, the gate, its sync.
    (3, [1, 2], 0, Torn::Record),
    (4, [1, 2], 0, Torn::Record),
    (5, [1, 2], 0, Torn::Gate),
    (6, [1, 2], 0, Torn::Gate),
    (7, [0, 1], 1, Torn::Record),
    (8, [0, 1], 1, Torn::Record),
    (9, [0, 1], 1, Torn::Gate),
    (10, [0, 1], 1, Torn::Gate),
    (11, [0, 0], 2, Torn::Record),
];

/// The answer to an append: 0 where it is kept, 1 where the disk failed, 2 where the journal is closed.
fn append(alloc: Global, journal: &mut Journal<MemoryDisk>) -> Result<u8, Fail> {
    expect_payload(alloc, UP)?;
    match journal.append(UP) {
        Ok(()) => Ok(0),
        Err(JournalStop::DiskFault) => Ok(1),
        Err(JournalStop::Closed) => Ok(2),
        Err(stop) => Err(Fail::new(format_args!("{stop}"))),
    }
}

/// The answers to two appends on a disk of which this call fails, and that disk.
fn append_twice(alloc: Global, call: u64) -> Result<([u8; 2], MemoryDisk), Fail> {
    let Ok(mut journal) = Journal::create(alloc, disk_of(alloc, b"", &[call])?) else {
        return Err(Fail::new("the first two calls don't fail"));
    };
    let first = append(alloc, &mut journal)?;
    let second = append(alloc, &mut journal)?;
    Ok(([first, second], journal.into_disk()))
}

/// Fails where two appends go otherwise than a row wants, or a crash leaves another journal.
fn expect_row(alloc: Global, (call, answers, before, torn): Row) -> Result<(), Fail> {
    let (found, disk) = append_twice(alloc, call)?;
    if found != answers {
        return Err(Fail::new(format_args!("{found:?} at call {call}")));
    }
    expect_images(alloc, disk.bytes(), before, torn)
}

/// Fails where two appends go otherwise than some row wants.
fn expect_rows(alloc: Global, rows: &[Row]) -> Result<(), Fail> {
    for row in rows {
        expect_row(alloc, *row)?;
    }
    Ok(())
}

#[test]
fn a_crash_at_each_call_leaves_what_was_answered(rt: HostRuntime) -> Result<(), Fail> {
    expect_rows(rt.alloc(), &ROWS)
}
