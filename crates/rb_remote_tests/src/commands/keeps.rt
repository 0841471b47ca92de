// `keep ADDRESS S COUNT J`: requests that are kept on disks in memory.

use crate::client::answers::other;
use crate::commands::servers::{Row, SERVE, expect_served};
use crate::commands::sessions::{STEADY, Session};
use crate::commands::texts::{NOTHING_REPLY, SERVICE, TABLE};
use rb_disk::{MemoryDisk, MemoryStores};
use rb_trees::Seq;
use std::alloc::Global;
use std::test::Fail;

/// The frame of a request that lets the first file grow by 1.
const GROW: &[u8] =
    b"RB\x01\x00\x00\x00\x00\x00\x00\x00H\x01\x00\x00\x00\x00\x01\x10\x00\x00\x00\x00\x00\x00\x00\x01&\x00\x00\x00\x01\x00\x00\x00\x00\x04grow&\x00\x00\x00\x01\x04\x00\x00\x00\x04file#\x00\x00\x00\x01 \x01\x00\x00\x00\x00\x00\x00\x00\x00\x00\x00\x00\x01 \x01\x00\x00\x00\x00\x00\x00\x00\x01";

/// A journal of that request.
const KEPT: &[u8] =
    b"RBJ\x01\x01\x00\x00\x00H\x01\x00\x00\x00\x00\x01\x10\x00\x00\x00\x00\x00\x00\x00\x01&\x00\x00\x00\x01\x00\x00\x00\x00\x04grow&\x00\x00\x00\x01\x04\x00\x00\x00\x04file#\x00\x00\x00\x01 \x01\x00\x00\x00\x00\x00\x00\x00\x00\x00\x00\x00\x01 \x01\x00\x00\x00\x00\x00\x00\x00\x01\x00";

/// The record of that request, behind a gate that stayed closed.
const CLOSED: &[u8] =
    b"RBJ\x01\x00\x00\x00\x00H\x01\x00\x00\x00\x00\x01\x10\x00\x00\x00\x00\x00\x00\x00\x01&\x00\x00\x00\x01\x00\x00\x00\x00\x04grow&\x00\x00\x00\x01\x04\x00\x00\x00\x04file#\x00\x00\x00\x01 \x01\x00\x00\x00\x00\x00\x00\x00\x00\x00\x00\x00\x01 \x01\x00\x00\x00\x00\x00\x00\x00\x01\x00";

/// A journal of no request.
const NONE: &[u8] = b"RBJ\x01\x00";

/// The lines of the service's objects after that request.
const GROWN: &str =
    "object 0: Dir { list = [#1, #2]; }\nobject 1: File { name = \"a\"; size = 11; }\nobject 2: File { name = \"bb\"; size = 200; }\n";

/// A session of that request.
const ONCE: Session<'static> = Session {
    request: GROW,
    times: 1,
    ..STEADY
};

/// A command at the address `a` over such a session, which shows no table, and in whose session nothing is written.
const KEEP: Row<'static> = Row {
    words: "keep a s 1 j",
    service: SERVICE,
    sessions: &[ONCE],
    ..SERVE
};

/// A command over sessions and over the disk `j` with these bytes, of which the calls of these numbers fail, and the bytes of the
/// disk that comes back.
struct Case {
    row: Row<'static>,
    disk: &'static [u8],
    failing: &'static [u64],
    left: &'static [u8],
}

const CASES: &[Case] = &[
    Case {
        row: Row {
            said: "0 session 1 requests 1 end\n",
            rest: GROWN,
            replies: &[NOTHING_REPLY],
            ..KEEP
        },
        disk: b"",
        failing: &[],
        left: KEPT,
    },
    // What was kept is performed again.
    Case {
        row: Row {
            sessions: &[],
            said: "0 ",
            rest: GROWN,
            ..KEEP
        },
        disk: KEPT,
        failing: &[],
        left: KEPT,
    },
    // A record whose gate stayed closed is none.
    Case {
        row: Row {
            sessions: &[],
            said: "0 ",
            rest: TABLE,
            ..KEEP
        },
        disk: CLOSED,
        failing: &[],
        left: CLOSED,
    },
    Case {
        row: Row {
            said: "16 journal 4 NotAJournal\n",
            ..KEEP
        },
        disk: b"RBJ\x02\x00",
        failing: &[],
        left: b"RBJ\x02\x00",
    },
    Case {
        row: Row {
            said: "16 journal 5 BadRecord\n",
            ..KEEP
        },
        disk: b"RBJ\x01\x01\x00",
        failing: &[],
        left: b"RBJ\x01\x01\x00",
    },
    // The first sync of the request's record fails, or the second one: no reply was written.
    Case {
        row: Row {
            words: "keep a s 2 j",
            sessions: &[ONCE, ONCE],
            said: "15 disk fault j\n",
            replies: &[b""],
            ..KEEP
        },
        disk: b"",
        failing: &[5],
        left: CLOSED,
    },
    Case {
        row: Row {
            words: "keep a s 2 j",
            sessions: &[ONCE, ONCE],
            said: "15 disk fault j\n",
            replies: &[b""],
            ..KEEP
        },
        disk: b"",
        failing: &[7],
        left: KEPT,
    },
    // The disk's length can't be had, or no journal can be begun.
    Case {
        row: Row {
            said: "15 disk fault j\n",
            ..KEEP
        },
        disk: b"",
        failing: &[1],
        left: b"",
    },
    Case {
        row: Row {
            said: "15 disk fault j\n",
            ..KEEP
        },
        disk: b"",
        failing: &[3],
        left: NONE,
    },
    // There is no such disk.
    Case {
        row: Row {
            words: "keep a s 1 q",
            said: "15 disk fault q\n",
            ..KEEP
        },
        disk: b"",
        failing: &[],
        left: b"",
    },
    // The journal is begun before the address is listened on.
    Case {
        row: Row {
            words: "keep b s 1 j",
            said: "12 listen fault\n",
            ..KEEP
        },
        disk: b"",
        failing: &[],
        left: NONE,
    },
    // The service counts before the disk.
    Case {
        row: Row {
            words: "keep a p 1 q",
            said: "3 file fault p\n",
            ..KEEP
        },
        disk: b"",
        failing: &[],
        left: b"",
    },
    Case {
        row: Row {
            words: "keep a s 0 j",
            sessions: &[],
            said: "2 words not understood\n",
            ..KEEP
        },
        disk: b"",
        failing: &[],
        left: b"",
    },
    Case {
        row: Row {
            words: "keep a s 1",
            sessions: &[],
            said: "2 words not understood\n",
            ..KEEP
        },
        disk: b"",
        failing: &[],
        left: b"",
    },
];

/// Stores with one disk, under the name `j`.
fn stores_of(alloc: Global, disk: &[u8], failing: &[u64]) -> Result<MemoryStores, Fail> {
    let bytes = Seq::from_slice(alloc, disk)?;
    let disk = MemoryDisk::make(alloc, bytes, Seq::from_slice(alloc, failing)?)?;
    let mut stores = MemoryStores::make(alloc, Seq::new(alloc));
    stores.add("j", disk)?;
    Ok(stores)
}

/// Fails where the disk `j` isn't in its place, or has other bytes.
fn same_disk(words: &str, stores: &MemoryStores, left: &[u8]) -> Result<(), Fail> {
    match stores.disk("j") {
        Some(disk) if disk.bytes() == left => Ok(()),
        _ => Err(other("disk that came back", words)),
    }
}

/// Fails where a case doesn't hold.
fn expect_case(alloc: Global, case: &Case) -> Result<(), Fail> {
    let mut stores = stores_of(alloc, case.disk, case.failing)?;
    expect_served(alloc, &case.row, &mut stores)?;
    same_disk(case.row.words, &stores, case.left)
}

#[test]
fn accepted_requests_are_kept_before_they_are_answered(rt: HostRuntime) -> Result<(), Fail> {
    for case in CASES {
        expect_case(rt.alloc(), case)?;
    }
    Ok(())
}
