// Requests that are kept before they are answered, with a stop at each call of the disk.

ghost use Rattle.std.specs.Prelude.{◌≡◌, true, IfOk};
ghost use Rattle.rb_session.specs.Answering.{IsTypedHost};

use crate::hosts::counter;
use crate::images::{Torn, expect_images};
use crate::payloads::UP;
use crate::rows::disk_of;
use bytes::BytesMut;
use rb_disk::MemoryDisk;
use rb_journal::{Journal, JournalStop, Kept};
use rb_session::Answers;
use std::alloc::Global;
use std::test::*;

/// The call of the disk that fails, how many bytes of replies there are, how many requests were kept before the one that
/// stops, and what of it a crash may tear.
type Row = (u64, usize, u8, Torn);

/// Each call of the first and the third request but one, and then none.
const ROWS: [Row; 8] = [
    // The record of the first request, its sync and the gate.
    (3, 0, 0, Torn::Record),
    (4, 0, 0, Torn::Record),
    (5, 0, 0, Torn::Gate),
    // The record of the third request, its sync, the gate and its sync. The refused one makes no call.
    (7, 12, 1, Torn::Record),
    (8, 12, 1, Torn::Record),
    (9, 12, 1, Torn::Gate),
    (10, 12, 1, Torn::Gate),
    (11, 18, 2, Torn::Record),
];

/// A request that is refused.
const REFUSED: &[u8] = b"\x01\x00";

/// Whether a request is answered, and no fault of the disk stops it.
fn is_answered(
    alloc: Global,
    kept: &mut Kept<MemoryDisk>,
    request: &[u8],
    replies: &mut BytesMut,
) -> Result<bool, Fail>
    requires { IsTypedHost kept.old.host }
    ensures { IfOk result (λ is. is ≡ true → IsTypedHost kept.new.host) }
{
    if request.len() > 16_777_216 {
        return Err(Fail::new("the request is too long"));
    }
    match kept.answer_one(alloc, request, replies) {
        Ok(_) => Ok(true),
        Err(JournalStop::DiskFault) => Ok(false),
        Err(stop) => Err(Fail::new(format_args!("{stop}"))),
    }
}

/// Sends three requests up to a stop, of which the second is refused.
fn send_three(
    alloc: Global,
    kept: &mut Kept<MemoryDisk>,
    replies: &mut BytesMut,
) -> Result<bool, Fail>
    requires { IsTypedHost kept.old.host }
{
    Ok(
        is_answered(alloc, kept, UP, replies)?
            && is_answered(alloc, kept, REFUSED, replies)?
            && is_answered(alloc, kept, UP, replies)?,
    )
}

/// The journal of which this call of the disk fails.
fn journal_of(alloc: Global, call: u64) -> Result<Journal<MemoryDisk>, Fail> {
    match Journal::create(alloc, disk_of(alloc, b"", &[call])?) {
        Ok(journal) => Ok(journal),
        Err(_) => Err(Fail::new("the first two calls don't fail")),
    }
}

/// The disk of which this call fails, after the three requests.
fn disk_after(alloc: Global, call: u64, replies: &mut BytesMut) -> Result<MemoryDisk, Fail> {
    let host = counter(alloc)?;
    let mut kept = Kept::make(journal_of(alloc, call)?, host);
    send_three(alloc, &mut kept, replies)?;
    let (journal, _) = kept.into_parts();
    Ok(journal.into_disk())
}

/// Fails where other replies are made than a row wants, or a crash leaves another journal.
fn expect_row(alloc: Global, (call, size, before, torn): Row) -> Result<(), Fail> {
    let mut replies = BytesMut::new(alloc);
    let disk = disk_after(alloc, call, &mut replies)?;
    if replies.len() != size {
        return Err(Fail::new(format_args!("{} bytes at call {call}", replies.len())));
    }
    expect_images(alloc, disk.bytes(), before, torn)
}

/// Fails where other replies are made than some row wants.
fn expect_rows(alloc: Global, rows: &[Row]) -> Result<(), Fail> {
    for row in rows {
        expect_row(alloc, *row)?;
    }
    Ok(())
}

#[test]
fn a_second_sync_that_fails_leaves_no_reply_and_at_most_one_request(
    rt: HostRuntime,
) -> Result<(), Fail> {
    expect_row(rt.alloc(), (6, 0, 0, Torn::Gate))
}

#[test]
fn each_request_that_is_answered_is_kept(rt: HostRuntime) -> Result<(), Fail> {
    expect_rows(rt.alloc(), &ROWS)
}
