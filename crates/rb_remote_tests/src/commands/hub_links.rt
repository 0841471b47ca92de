// `run ADDRESS P` over a link through a hub, at which others have sessions too.

use crate::client::hosts::host_of;
use crate::commands::commands::expect_run;
use crate::commands::texts::{SERVICE, TWICE};
use rb_hub::{Event, Hub, HubLink};
use rb_trees::{Memory, Seq};
use std::alloc::Global;
use std::test::Fail;

/// What others do, as a table has it.
#[derive(Clone, Copy)]
enum Come {
    Open,
    Piece(u32, &'static [u8]),
}

/// The frame of a request that has the first file grow by 40.
const GROW: &[u8] =
    b"RB\x01\x00\x00\x00\x00\x00\x00\x00\x22\x02\x02\x04grow\x04file\x00\x01\x10\x00\x00\x26\x00\x00\x00\x26\x00\x04\x01\x23\x01\x20\x01\x00\x01\x20\x01\x50";

/// The front of that frame, and what follows it.
const GROW_FRONT: &[u8] = b"RB\x01\x00\x00\x00\x00\x00\x00\x00\x22\x02\x02\x04grow\x04file\x00\x01";

const GROW_END: &[u8] =
    b"\x10\x00\x00\x26\x00\x00\x00\x26\x00\x04\x01\x23\x01\x20\x01\x00\x01\x20\x01\x50";

/// The frame of the same request without its last byte, which spells no script.
const SHORT: &[u8] =
    b"RB\x01\x00\x00\x00\x00\x00\x00\x00\x21\x02\x02\x04grow\x04file\x00\x01\x10\x00\x00\x26\x00\x00\x00\x26\x00\x04\x01\x23\x01\x20\x01\x00\x01\x20\x01";

/// What others do before the first exchange and before the second one, and what is shown then. The link's session is number 0.
const ROWS: &[(&[&[Come]], &str)] = &[
    (
        &[&[], &[Come::Open, Come::Piece(1, GROW)]],
        "0 10\n50\ndone\nexchanges 2\n",
    ),
    // The other's request began before the first exchange.
    (
        &[
            &[Come::Open, Come::Piece(1, GROW_FRONT)],
            &[Come::Piece(1, GROW_END)],
        ],
        "0 10\n50\ndone\nexchanges 2\n",
    ),
    // The other's request is refused.
    (
        &[&[], &[Come::Open, Come::Piece(1, SHORT)]],
        "0 10\n10\ndone\nexchanges 2\n",
    ),
    // No other sends a piece of the link's own session.
    (
        &[&[], &[Come::Open, Come::Piece(0, GROW)]],
        "0 10\n10\ndone\nexchanges 2\n",
    ),
];

/// The lists of events of these tables.
fn others_of(alloc: Global, tables: &[&[Come]]) -> Result<Seq<Seq<Event>>, Memory> {
    let mut others = Seq::new(alloc);
    for comes in tables {
        let mut events = Seq::new(alloc);
        for come in *comes {
            events.push(match come {
                Come::Open => Event::Open,
                Come::Piece(number, bytes) => Event::Piece(*number, Seq::from_slice(alloc, bytes)?),
            })?;
        }
        others.push(events)?;
    }
    Ok(others)
}

/// A link to the service of files through a new hub, where others do this before each exchange.
fn link_of(alloc: Global, tables: &[&[Come]]) -> Result<HubLink, Fail> {
    let hub = Hub::make(alloc, host_of(alloc, SERVICE)?);
    match HubLink::make(alloc, hub, others_of(alloc, tables)?) {
        Ok(link) => Ok(link),
        Err(_) => Err(Fail::new("no session is opened")),
    }
}

#[test]
fn a_batch_finds_what_the_sessions_of_others_left(rt: HostRuntime) -> Result<(), Fail> {
    let alloc = rt.alloc();
    for (tables, want) in ROWS {
        expect_run(alloc, TWICE, link_of(alloc, tables)?, want)?;
    }
    Ok(())
}
