// Replies that are refused, over frames in memory.

use crate::client::runs::frame_link;
use crate::commands::commands::expect_run;
use crate::commands::texts::NAMES;
use std::alloc::Global;
use std::test::Fail;

/// Fails where `run a p` says something else of the program of two names over a link on which these bytes come.
pub fn expect_reply(alloc: Global, bytes: &[u8], want: &str) -> Result<(), Fail> {
    expect_run(alloc, NAMES, frame_link(alloc, bytes)?, want)
}

/// Replies to the program of two names, with what is said of each.
const REFUSED: &[(&[u8], &str)] = &[
    // Nothing comes, a header is cut short, and a payload is.
    (b"", "8 bad reply 0 cut at 0\n"),
    (b"RB\x02\x00", "8 bad reply 0 cut at 4\n"),
    (
        b"RB\x02\x00\x00\x00\x00\x00\x00\x00\x06\x01",
        "8 bad reply 0 cut at 12\n",
    ),
    // Each byte of a header may be wrong.
    (b"QB", "8 bad reply 0 frame at 0\n"),
    (b"RR", "8 bad reply 0 frame at 1\n"),
    (b"RB\x01", "8 bad reply 0 frame at 2\n"),
    // A forest that is none, one of nothing, and one with something left over.
    (
        b"RB\x02\x00\x00\x00\x00\x00\x00\x00\x01\x01",
        "8 bad reply 0 forest 1 at 1\n",
    ),
    (
        b"RB\x02\x00\x00\x00\x00\x00\x00\x00\x06\x01\x00\x00\x00\x00\x00",
        "8 bad reply 0 misfit 0\n",
    ),
    (
        b"RB\x02\x00\x00\x00\x00\x00\x00\x00\x1e\x01\x00\x00\x00\x03\x31\x03\x00\x00\x00\x01a\x31\x03\x00\x00\x00\x01b\x31\x01\x00\x00\x00\x00\x00\x00\x00\x07\x00",
        "8 bad reply 0 misfit extra\n",
    ),
    // A refusal, and what should be one.
    (
        b"RB\x03\x00\x00\x00\x00\x00\x00\x00\x06\x01\x0b\x00\x00\x00\x05",
        "8 bad reply 0 refused 11 at 5\n",
    ),
    (
        b"RB\x03\x00\x00\x00\x00\x00\x00\x00\x01\x01",
        "8 bad reply 0 garbled\n",
    ),
];

#[test]
fn a_reply_is_refused_for_its_reason(rt: HostRuntime) -> Result<(), Fail> {
    for (bytes, want) in REFUSED {
        expect_reply(rt.alloc(), bytes, want)?;
    }
    Ok(())
}
