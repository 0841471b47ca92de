// Hostile peers: what a client says of replies, and what a server says and replies to requests.

use crate::client::runs::{framed, nested};
use crate::commands::replies::expect_reply;
use crate::commands::servers::{Row, expect_served};
use crate::commands::sessions::Session;
use crate::commands::texts::NUMBER;
use rb_disk::NullStores;
use rb_trees::Seq;
use std::alloc::Global;
use std::test::Fail;

/// What a peer sends.
#[derive(Clone, Copy)]
enum Sent<'a> {
    /// These bytes.
    Bytes(&'a [u8]),
    /// A frame of this kind and this payload.
    Frame(u8, &'a [u8]),
    /// A frame of this kind, with 64 times these bytes between others.
    Nested(u8, &'a [u8], &'a [u8], &'a [u8]),
}

/// Who gets it.
#[derive(Clone, Copy)]
enum Receiver<'a> {
    /// `run a p`, of the program of two names.
    Client,
    /// `serve a s 1`, of a service of one object, which replies these bytes in its session.
    Server(&'a [u8]),
}

/// What is sent, to whom, and what is shown then: the exit status before what is printed. A server prints the table that is left
/// behind the line of its session.
#[derive(Clone, Copy)]
struct Case<'a> {
    sent: Sent<'a>,
    to: Receiver<'a>,
    shown: &'a str,
}

const CASES: &[Case<'static>] = &[
    // An Int without its last byte, and a Bool that is neither 0 nor 1.
    Case {
        sent: Sent::Frame(
            2,
            b"\x01\x00\x00\x00\x01\x31\x01\x00\x00\x00\x00\x00\x00\x00",
        ),
        to: Receiver::Client,
        shown: "8 bad reply 0 forest 1 at 14\n",
    },
    Case {
        sent: Sent::Frame(2, b"\x01\x00\x00\x00\x01\x32\x02\x00\x00\x00\x00\x00\x00"),
        to: Receiver::Client,
        shown: "8 bad reply 0 forest 4 at 6\n",
    },
    // Forests that the script can't have: an Int for a name, a third entry, and a fault in place of the names.
    Case {
        sent: Sent::Frame(
            2,
            b"\x01\x00\x00\x00\x02\x31\x01\x00\x00\x00\x00\x00\x00\x00\x01\x31\x03\x00\x00\x00\x01a\x00",
        ),
        to: Receiver::Client,
        shown: "8 bad reply 0 misfit 0\n",
    },
    Case {
        sent: Sent::Frame(
            2,
            b"\x01\x00\x00\x00\x03\x31\x03\x00\x00\x00\x01a\x31\x03\x00\x00\x00\x01a\x31\x03\x00\x00\x00\x01a\x00",
        ),
        to: Receiver::Client,
        shown: "8 bad reply 0 misfit extra\n",
    },
    Case {
        sent: Sent::Frame(
            2,
            b"\x01\x00\x00\x00\x00\x01\x00\x00\x00\x05\x00\x00\x00\x00\x01",
        ),
        to: Receiver::Client,
        shown: "8 bad reply 0 misfit 0\n",
    },
    // A refusal that is none.
    Case {
        sent: Sent::Frame(3, b"\x00"),
        to: Receiver::Client,
        shown: "8 bad reply 0 garbled\n",
    },
    // 65 nodes within each other.
    Case {
        sent: Sent::Nested(
            2,
            b"\x01",
            b"\x00\x00\x00\x01\x32\x01",
            b"\x00\x00\x00\x00\x00",
        ),
        to: Receiver::Client,
        shown: "8 bad reply 0 forest 5 at 385\n",
    },
    // A kind that there isn't, and the greatest length, of which nothing comes.
    Case {
        sent: Sent::Bytes(b"RB\x04\x00\x00\x00\x00\x00\x00\x00\x00more"),
        to: Receiver::Client,
        shown: "8 bad reply 0 frame at 2\n",
    },
    Case {
        sent: Sent::Bytes(b"RB\x02\xff\xff\xff\xff\xff\xff\xff\xff"),
        to: Receiver::Client,
        shown: "8 bad reply 0 cut at 11\n",
    },
    // 65 blocks within each other: a branch in each of 64.
    Case {
        sent: Sent::Nested(
            1,
            b"\x01\x00",
            b"\x00\x00\x00\x01\x13\x00\x00\x00\x00\x00\x00\x00\x00\x20\x02\x01",
            b"\x00\x00\x00\x00",
        ),
        to: Receiver::Server(b"RB\x03\x00\x00\x00\x00\x00\x00\x00\x06\x01\x05\x00\x00\x04\x02"),
        shown: "0 session 1 requests 1 end\nobject 0: D { }\n",
    },
    // One byte more than a request may have.
    Case {
        sent: Sent::Bytes(b"RB\x01\x00\x00\x00\x00\x01\x00\x00\x01"),
        to: Receiver::Server(b""),
        shown: "0 session 1 requests 0 bad frame\nobject 0: D { }\n",
    },
];

/// The bytes that are sent.
fn bytes_of(alloc: Global, sent: Sent<'_>) -> Result<Seq<u8>, Fail> {
    match sent {
        Sent::Bytes(bytes) => Ok(Seq::from_slice(alloc, bytes)?),
        Sent::Frame(kind, payload) => framed(alloc, kind, payload),
        Sent::Nested(kind, front, part, end) => {
            let payload = nested(alloc, front, part, 64, end)?;
            framed(alloc, kind, payload.as_slice())
        }
    }
}

/// Fails where something else comes of bytes than is wanted.
fn expect_bytes(alloc: Global, bytes: &[u8], case: &Case<'_>) -> Result<(), Fail> {
    match case.to {
        Receiver::Client => expect_reply(alloc, bytes, case.shown),
        Receiver::Server(reply) => {
            let row = Row {
                words: "serve a s 1",
                service: NUMBER,
                address: "a",
                sessions: &[Session {
                    request: b"",
                    times: 0,
                    rest: bytes,
                    reads: &[],
                    writes: &[],
                }],
                most: usize::MAX,
                calls: &[],
                writes: &[],
                said: case.shown,
                rest: "",
                replies: &[reply],
            };
            expect_served(alloc, &row, &mut NullStores)
        }
    }
}

#[test]
fn hostile_bytes_are_refused(rt: HostRuntime) -> Result<(), Fail> {
    let alloc = rt.alloc();
    for case in CASES {
        expect_bytes(alloc, bytes_of(alloc, case.sent)?.as_slice(), case)?;
    }
    Ok(())
}
