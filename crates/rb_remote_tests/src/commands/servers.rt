// `serve ADDRESS S COUNT` and `child S`, over sessions in memory.

use crate::commands::commands::expect_on;
use crate::commands::desks::Asked;
use crate::commands::sessions::{STEADY, Session, listen_of, same_replies};
use crate::commands::texts::{NOTHING, NOTHING_REPLIES, NOTHING_REPLY, NUMBER, SERVICE, TABLE};
use rb_base::MemoryListen;
use rb_disk::{NullStores, Stores};
use rb_session::NullDial;
use std::alloc::Global;
use std::test::Fail;

/// A command on a service, over sessions at an address that move so many bytes at once, with the numbers of the listener's calls and
/// of the writes that fail: what is shown, a beginning and the rest, and what was written in each session that came back.
#[derive(Clone, Copy)]
pub struct Row<'a> {
    pub words: &'a str,
    pub service: &'a str,
    pub address: &'a str,
    pub sessions: &'a [Session<'a>],
    pub most: usize,
    pub calls: &'a [u64],
    pub writes: &'a [u64],
    pub said: &'a str,
    pub rest: &'a str,
    pub replies: &'a [&'a [u8]],
}

/// Fails where a row shows something else than it is to, over a listener and stores.
fn expect_shown<T: Stores>(
    alloc: Global,
    row: &Row<'_>,
    listen: &mut MemoryListen,
    stores: &mut T,
) -> Result<(), Fail> {
    let asked = Asked {
        words: row.words,
        texts: &[("s", "", row.service)],
        reads: &[],
        writes: row.writes,
        said: row.said,
        rest: row.rest,
    };
    expect_on(alloc, &asked, &mut NullDial::make(alloc), listen, stores)
}

/// Fails where a row doesn't hold over stores.
pub fn expect_served<T: Stores>(alloc: Global, row: &Row<'_>, stores: &mut T) -> Result<(), Fail> {
    let mut listen = listen_of(alloc, &[row.address], row.sessions, row.calls, row.most)?;
    expect_shown(alloc, row, &mut listen, stores)?;
    same_replies(row.words, &listen, row.replies)
}

/// Fails at the first row that doesn't hold without stores.
fn expect_rows(alloc: Global, rows: &[Row<'_>]) -> Result<(), Fail> {
    for row in rows {
        expect_served(alloc, row, &mut NullStores)?;
    }
    Ok(())
}

/// A session of one request.
const ONCE: Session<'static> = Session {
    request: NOTHING,
    times: 1,
    ..STEADY
};

/// A server at `a` of one object, to which three sessions come that never fail, and in which nothing is written.
pub const SERVE: Row<'static> = Row {
    words: "serve a s 1",
    service: NUMBER,
    address: "a",
    sessions: &[ONCE, STEADY, ONCE],
    most: usize::MAX,
    calls: &[],
    writes: &[],
    said: "",
    rest: "",
    replies: &[],
};

/// The same with a session of two requests.
const DOUBLE: Row<'static> = Row {
    sessions: &[Session {
        request: NOTHING,
        times: 2,
        ..STEADY
    }],
    said: "0 session 1 requests 2 end\nobject 0: D { }\n",
    replies: &[NOTHING_REPLIES],
    ..SERVE
};

/// A server of two sessions.
const AGAIN: Row<'static> = Row {
    words: "serve a s 2",
    sessions: &[ONCE, ONCE],
    ..SERVE
};

/// A child with one session.
const CHILD: Row<'static> = Row {
    words: "child s",
    address: "-",
    sessions: &[ONCE],
    ..SERVE
};

const SERVERS: &[Row<'static>] = &[
    // Sessions are served one after the other.
    Row {
        words: "serve a s 3",
        service: SERVICE,
        sessions: &[
            ONCE,
            Session {
                rest: b"RB\x01\x00\x00",
                ..STEADY
            },
        ],
        said: "0 session 1 requests 1 end\nsession 2 requests 0 cut\n",
        rest: TABLE,
        replies: &[NOTHING_REPLY, b""],
        ..SERVE
    },
    // No more sessions are served than are asked for.
    Row {
        words: "serve a s 1",
        said: "0 session 1 requests 1 end\nobject 0: D { }\n",
        replies: &[NOTHING_REPLY],
        ..SERVE
    },
    Row {
        words: "serve a s 0000000002",
        said: "0 session 1 requests 1 end\nsession 2 requests 0 end\nobject 0: D { }\n",
        replies: &[NOTHING_REPLY, b""],
        ..SERVE
    },
    Row {
        words: "serve a s 0",
        said: "2 words not understood\n",
        ..SERVE
    },
    Row {
        words: "serve a s 1000001",
        said: "2 words not understood\n",
        ..SERVE
    },
    Row {
        words: "serve a s 00000000001",
        said: "2 words not understood\n",
        ..SERVE
    },
    Row {
        words: "serve a s",
        said: "2 words not understood\n",
        ..SERVE
    },
    Row {
        words: "serve a s x",
        said: "2 words not understood\n",
        ..SERVE
    },
    Row {
        words: "serve a q 1",
        said: "3 file fault q\n",
        ..SERVE
    },
    Row {
        words: "serve b s 1",
        said: "12 listen fault\n",
        ..SERVE
    },
    // Each session says how it ended: one of a wrong byte, three of which a read or a write fails, and one that ends. The first
    // two reads give the header and the payload of a request.
    Row {
        words: "serve a s 9",
        sessions: &[
            Session {
                rest: b"RB\x02",
                ..STEADY
            },
            Session {
                reads: &[1],
                ..ONCE
            },
            Session {
                reads: &[3],
                ..ONCE
            },
            Session {
                writes: &[1],
                ..ONCE
            },
            ONCE,
        ],
        said: "0 session 1 requests 0 bad frame\nsession 2 requests 0 read fault\nsession 3 requests 1 read fault\nsession 4 requests 1 write fault\nsession 5 requests 1 end\nobject 0: D { }\n",
        replies: &[b"", b"", NOTHING_REPLY, b"", NOTHING_REPLY],
        ..SERVE
    },
    // A session is the same however its bytes come.
    Row { most: 1, ..DOUBLE },
    Row { most: 7, ..DOUBLE },
    Row {
        most: usize::MAX,
        ..DOUBLE
    },
];

const FAILING: &[Row<'static>] = &[
    // A listener that fails is a fault.
    Row {
        calls: &[1],
        said: "12 listen fault\n",
        ..AGAIN
    },
    Row {
        calls: &[2],
        said: "12 listen fault\n",
        ..AGAIN
    },
    Row {
        calls: &[3],
        said: "12 session 1 requests 1 end\nlisten fault\n",
        replies: &[NOTHING_REPLY],
        ..AGAIN
    },
    Row {
        calls: &[4],
        said: "0 session 1 requests 1 end\nsession 2 requests 1 end\nobject 0: D { }\n",
        replies: &[NOTHING_REPLY, NOTHING_REPLY],
        ..AGAIN
    },
    // After a write fault no session is served.
    Row {
        writes: &[1],
        said: "9 ",
        replies: &[NOTHING_REPLY],
        ..AGAIN
    },
    Row {
        writes: &[2],
        said: "9 session 1 requests 1 end\n",
        replies: &[NOTHING_REPLY, NOTHING_REPLY],
        ..AGAIN
    },
    Row {
        writes: &[3],
        said: "9 session 1 requests 1 end\nsession 2 requests 1 end\n",
        replies: &[NOTHING_REPLY, NOTHING_REPLY],
        ..AGAIN
    },
];

const CHILDREN: &[Row<'static>] = &[
    // A child prints nothing.
    Row {
        said: "0 ",
        replies: &[NOTHING_REPLY],
        ..CHILD
    },
    Row {
        sessions: &[Session {
            rest: b"RB\x01\x00\x00",
            ..STEADY
        }],
        said: "0 ",
        replies: &[b""],
        ..CHILD
    },
    Row {
        words: "child q",
        said: "3 ",
        ..CHILD
    },
    // A child that can't serve says so by its status.
    Row {
        service: "$",
        said: "6 ",
        ..CHILD
    },
    Row {
        calls: &[1],
        said: "12 ",
        ..CHILD
    },
    Row {
        calls: &[2],
        said: "12 ",
        ..CHILD
    },
];

#[test]
fn sessions_are_served_one_after_the_other(rt: HostRuntime) -> Result<(), Fail> {
    let alloc = rt.alloc();
    expect_rows(alloc, SERVERS)?;
    expect_rows(alloc, FAILING)?;
    expect_rows(alloc, CHILDREN)
}
