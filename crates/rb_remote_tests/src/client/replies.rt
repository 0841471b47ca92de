// What a run of two texts answers to each reply.

use crate::client::runs::{Row, expect_forests, expect_replies, nested};
use std::alloc::Global;
use std::test::Fail;

/// A batch that prints two texts.
const TWO: &str = "main { batch (Dir r) { print(r.file(0).name()); print(r.file(1).name()); } }";

/// Payloads with the answers: those that are no forests, which are told with their first violation, those that don't fit that
/// batch, and those that are replayed.
const FORESTS: &[Row<'static>] = &[
    (b"\x01", "bad reply 0 forest 1 1\n"),
    (
        b"\x01\x00\x00\x00\x01\x31\x01\x00\x00\x00\x00\x00\x00\x00",
        "bad reply 0 forest 1 14\n",
    ),
    (b"\x03\x00\x00\x00\x00\x00", "bad reply 0 forest 2 0\n"),
    // A forest of version 2, whose number has a needless group.
    (
        b"\x02\x00\x00\x00\x01\x31\x01\x80\x00\x00",
        "bad reply 0 forest 4 7\n",
    ),
    // A text of 4,097 bytes is announced.
    (
        b"\x01\x00\x00\x00\x01\x31\x03\x00\x00\x10\x01",
        "bad reply 0 forest 3 7\n",
    ),
    (
        b"\x01\x00\x00\x00\x01\x32\x02\x00\x00\x00\x00\x00\x00",
        "bad reply 0 forest 4 6\n",
    ),
    // A byte is behind the forest.
    (b"\x01\x00\x00\x00\x00\x00\x00", "bad reply 0 forest 6 6\n"),
    // Forests that don't fit.
    (b"\x01\x00\x00\x00\x00\x00", "bad reply 0 misfit 0\n"),
    (
        b"\x01\x00\x00\x00\x02\x31\x01\x00\x00\x00\x00\x00\x00\x00\x01\x31\x03\x00\x00\x00\x01a\x00",
        "bad reply 0 misfit 0\n",
    ),
    (
        b"\x01\x00\x00\x00\x02\x31\x03\x00\x00\x00\x01a\x31\x01\x00\x00\x00\x00\x00\x00\x00\x01\x00",
        "bad reply 0 misfit 1\n",
    ),
    (
        b"\x01\x00\x00\x00\x01\x31\x03\x00\x00\x00\x01a\x00",
        "bad reply 0 misfit 1\n",
    ),
    (
        b"\x01\x00\x00\x00\x03\x31\x03\x00\x00\x00\x01a\x31\x03\x00\x00\x00\x01a\x31\x03\x00\x00\x00\x01a\x00",
        "bad reply 0 misfit extra\n",
    ),
    // A fault at a step that the batch does not have.
    (
        b"\x01\x00\x00\x00\x00\x01\x00\x00\x00\x05\x00\x00\x00\x00\x01",
        "bad reply 0 misfit 0\n",
    ),
    (
        b"\x01\x00\x00\x00\x02\x31\x03\x00\x00\x00\x01a\x31\x03\x00\x00\x00\x01b\x01\x00\x00\x00\x05\x00\x00\x00\x00\x01",
        "bad reply 0 misfit extra\n",
    ),
    // A fault behind the value of its step.
    (
        b"\x01\x00\x00\x00\x02\x31\x03\x00\x00\x00\x01a\x31\x03\x00\x00\x00\x01b\x01\x00\x00\x00\x01\x00\x00\x00\x00\x01",
        "bad reply 0 misfit extra\n",
    ),
    // Forests that fit.
    (
        b"\x01\x00\x00\x00\x02\x31\x03\x00\x00\x00\x01a\x31\x03\x00\x00\x00\x02bb\x00",
        "ok 1 done\na\nbb\n",
    ),
    (
        b"\x01\x00\x00\x00\x02\x31\x03\x00\x00\x00\x01z\x31\x03\x00\x00\x00\x00\x00",
        "ok 1 done\nz\n\n",
    ),
    (
        b"\x01\x00\x00\x00\x01\x31\x03\x00\x00\x00\x01a\x01\x00\x00\x00\x01\x00\x00\x01\x19\x02",
        "ok 1 fault 2 at 3:57\na\n",
    ),
    (
        b"\x01\x00\x00\x00\x00\x01\x00\x00\x00\x00\x00\x00\x00\xff\x02",
        "ok 1 fault 2 at 3:31\n",
    ),
];

#[test]
fn forests_are_replayed_or_told_with_what_is_wrong(rt: HostRuntime) -> Result<(), Fail> {
    expect_forests(rt.alloc(), TWO, FORESTS)
}

/// Fails at the first number of nodes within each other, and of zeros behind them, whose payload has another answer.
fn expect_nested(alloc: Global, rows: &[(usize, &[u8], &str)]) -> Result<(), Fail> {
    for (count, zeros, want) in rows {
        let payload = nested(alloc, b"\x01", b"\x00\x00\x00\x01\x32\x01", *count, zeros)?;
        expect_forests(alloc, TWO, &[(payload.as_slice(), want)])?;
    }
    Ok(())
}

#[test]
fn sixty_four_nodes_are_a_forest_and_one_more_is_none(rt: HostRuntime) -> Result<(), Fail> {
    expect_nested(
        rt.alloc(),
        &[
            // Around the innermost node, which has five zeros, are 63 others, and 64, each of which ends with one.
            (63, &[0; 68], "bad reply 0 misfit 0\n"),
            (64, &[0; 69], "bad reply 0 forest 5 385\n"),
        ],
    )
}

/// Replies with the answers: those that are no frames, and refusals, and what is none.
const FRAMES: &[Row<'static>] = &[
    (b"", "bad reply 0 cut 0\n"),
    (b"RB", "bad reply 0 cut 2\n"),
    // The greatest length, and then the end.
    (
        b"RB\x02\xff\xff\xff\xff\xff\xff\xff\xff",
        "bad reply 0 cut 11\n",
    ),
    (
        b"RB\x02\x00\x00\x00\x00\x00\x00\x00\x15\x01\x00\x00\x00",
        "bad reply 0 cut 15\n",
    ),
    (b"XB", "bad reply 0 frame 0\n"),
    (b"RC", "bad reply 0 frame 1\n"),
    (
        b"RB\x04\x00\x00\x00\x00\x00\x00\x00\x00",
        "bad reply 0 frame 2\n",
    ),
    // A request is no reply.
    (
        b"RB\x01\x00\x00\x00\x00\x00\x00\x00\x00",
        "bad reply 0 frame 2\n",
    ),
    // Refusals.
    (
        b"RB\x03\x00\x00\x00\x00\x00\x00\x00\x01\x00",
        "bad reply 0 garbled\n",
    ),
    (
        b"RB\x03\x00\x00\x00\x00\x00\x00\x00\x00",
        "bad reply 0 garbled\n",
    ),
    (
        b"RB\x03\x00\x00\x00\x00\x00\x00\x00\x06\x01\x06\x00\x00\x00\x06",
        "bad reply 0 refused 6 6\n",
    ),
    (
        b"RB\x03\x00\x00\x00\x00\x00\x00\x00\x06\x01\x0b\x00\x00\x00\x09",
        "bad reply 0 refused 11 9\n",
    ),
    // No refusal has this number.
    (
        b"RB\x03\x00\x00\x00\x00\x00\x00\x00\x06\x01\x07\x00\x00\x00\x06",
        "bad reply 0 garbled\n",
    ),
    (
        b"RB\x03\x00\x00\x00\x00\x00\x00\x00\x07\x01\x06\x00\x00\x00\x06\x00",
        "bad reply 0 garbled\n",
    ),
    // A forest as a refusal.
    (
        b"RB\x03\x00\x00\x00\x00\x00\x00\x00\x15\x01\x00\x00\x00\x02\x31\x03\x00\x00\x00\x01a\x31\x03\x00\x00\x00\x02bb\x00",
        "bad reply 0 garbled\n",
    ),
    // A refusal as a forest: its last byte stands where an entry should.
    (
        b"RB\x02\x00\x00\x00\x00\x00\x00\x00\x06\x01\x06\x00\x00\x00\x06",
        "bad reply 0 forest 2 5\n",
    ),
];

#[test]
fn refusals_and_replies_that_are_no_frames_are_told(rt: HostRuntime) -> Result<(), Fail> {
    expect_replies(rt.alloc(), TWO, FRAMES)
}

/// Two batches, and a line between them.
const BETWEEN: &str =
    "main { batch (Dir r) { print(r.file(0).name()); print(r.file(1).name()); } print(5); batch (Dir q) { print(q.file(0).size()); } }";

/// Replies to both batches, with the answers.
const SECOND_REPLIES: &[Row<'static>] = &[
    (
        b"RB\x02\x00\x00\x00\x00\x00\x00\x00\x15\x01\x00\x00\x00\x02\x31\x03\x00\x00\x00\x01a\x31\x03\x00\x00\x00\x02bb\x00",
        "bad reply 1 cut 0\na\nbb\n5\n",
    ),
    (
        b"RB\x02\x00\x00\x00\x00\x00\x00\x00\x15\x01\x00\x00\x00\x02\x31\x03\x00\x00\x00\x01a\x31\x03\x00\x00\x00\x02bb\x00RB\x02\x00\x00\x00\x00\x00\x00\x00\x0d\x01\x00\x00\x00\x01\x31\x03\x00\x00\x00\x01a\x00",
        "bad reply 1 misfit 0\na\nbb\n5\n",
    ),
    (
        b"RB\x02\x00\x00\x00\x00\x00\x00\x00\x15\x01\x00\x00\x00\x02\x31\x03\x00\x00\x00\x01a\x31\x03\x00\x00\x00\x02bb\x00RB\x02\x00\x00\x00\x00\x00\x00\x00\x1a\x01\x00\x00\x00\x02\x31\x01\x00\x00\x00\x00\x00\x00\x00\x07\x31\x01\x00\x00\x00\x00\x00\x00\x00\x07\x00",
        "bad reply 1 misfit extra\na\nbb\n5\n",
    ),
    (
        b"RB\x02\x00\x00\x00\x00\x00\x00\x00\x15\x01\x00\x00\x00\x02\x31\x03\x00\x00\x00\x01a\x31\x03\x00\x00\x00\x02bb\x00RB\x02\x00\x00\x00\x00\x00\x00\x00\x01\x01",
        "bad reply 1 forest 1 1\na\nbb\n5\n",
    ),
    (
        b"RB\x02\x00\x00\x00\x00\x00\x00\x00\x15\x01\x00\x00\x00\x02\x31\x03\x00\x00\x00\x01a\x31\x03\x00\x00\x00\x02bb\x00RB\x04",
        "bad reply 1 frame 2\na\nbb\n5\n",
    ),
    (
        b"RB\x02\x00\x00\x00\x00\x00\x00\x00\x15\x01\x00\x00\x00\x02\x31\x03\x00\x00\x00\x01a\x31\x03\x00\x00\x00\x02bb\x00RB\x03\x00\x00\x00\x00\x00\x00\x00\x06\x01\x0d\x00\x00\x00\x04",
        "bad reply 1 refused 13 4\na\nbb\n5\n",
    ),
    (
        b"RB\x02\x00\x00\x00\x00\x00\x00\x00\x15\x01\x00\x00\x00\x02\x31\x03\x00\x00\x00\x01a\x31\x03\x00\x00\x00\x02bb\x00RB\x03\x00\x00\x00\x00\x00\x00\x00\x01\x00",
        "bad reply 1 garbled\na\nbb\n5\n",
    ),
    (
        b"RB\x02\x00\x00\x00\x00\x00\x00\x00\x15\x01\x00\x00\x00\x02\x31\x03\x00\x00\x00\x01a\x31\x03\x00\x00\x00\x02bb\x00RB\x02\x00\x00\x00\x00\x00\x00\x00\x10\x01\x00\x00\x00\x01\x31\x01\x00\x00\x00\x00\x00\x00\x00\x07\x00",
        "ok 2 done\na\nbb\n5\n7\n",
    ),
    // What is behind the second reply is not read.
    (
        b"RB\x02\x00\x00\x00\x00\x00\x00\x00\x15\x01\x00\x00\x00\x02\x31\x03\x00\x00\x00\x01a\x31\x03\x00\x00\x00\x02bb\x00RB\x02\x00\x00\x00\x00\x00\x00\x00\x10\x01\x00\x00\x00\x01\x31\x01\x00\x00\x00\x00\x00\x00\x00\x07\x00RB",
        "ok 2 done\na\nbb\n5\n7\n",
    ),
];

#[test]
fn lines_before_a_bad_second_reply_stand(rt: HostRuntime) -> Result<(), Fail> {
    expect_replies(rt.alloc(), BETWEEN, SECOND_REPLIES)
}
