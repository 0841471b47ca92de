// `both P S` over a Dial in memory, which gets the link back.

use crate::commands::desks::Text;
use crate::commands::dialled::{Back, Row, expect_rows};
use crate::commands::texts::{CALL, CALL_REPLY, CALL_REQUEST, FILES, NAMES, NUMBER, SERVICE};
use std::test::Fail;

/// The program of one call, and its service.
const CALLED: &[Text<'static>] = &[("p", "", CALL), ("s", "", NUMBER)];

/// The program of two names, and a service of three objects.
const NAMED: &[Text<'static>] = &[("p", FILES, NAMES), ("s", "", SERVICE)];

/// A run of that program over a Dial of which each of the first three dials fails, which gets no link back.
const NEAR: Row<'static> = Row {
    words: "both p s",
    texts: CALLED,
    dials: &[1, 2, 3],
    writes: &[],
    waiting: &[],
    wants: &[],
    back: Back::Nothing,
};

const ROWS: &[Row<'static>] = &[
    // The link in memory comes back.
    Row {
        wants: &["0 7\ndone\nexchanges 1\nobject 0: D { }\n"],
        back: Back::Exchange(CALL_REQUEST, CALL_REPLY),
        ..NEAR
    },
    // Other commands take no link.
    Row {
        words: "unsplit p s",
        wants: &["0 7\ndone\nexchanges 1\nobject 0: D { }\n"],
        ..NEAR
    },
    Row {
        words: "check p",
        wants: &["0 accepted\n"],
        ..NEAR
    },
    Row {
        words: "split p",
        wants: &["0 batch 1:38\ninputs\nscript\n  0 keep root.n()\nremainder\n  print(<0>);\n"],
        ..NEAR
    },
    Row {
        words: "both p q",
        wants: &["3 file fault q\n"],
        ..NEAR
    },
    Row {
        words: "words",
        wants: &["2 words not understood\n"],
        ..NEAR
    },
    // The link comes back after a write fault.
    Row {
        writes: &[2],
        wants: &["9 7\n"],
        back: Back::Exchanges(1),
        ..NEAR
    },
    // Each line of a table is written by itself.
    Row {
        texts: NAMED,
        writes: &[5],
        wants: &["9 a\nbb\ndone\nexchanges 1\n"],
        back: Back::Exchanges(1),
        ..NEAR
    },
    Row {
        texts: NAMED,
        writes: &[6],
        wants: &["9 a\nbb\ndone\nexchanges 1\nobject 0: Dir { list = [#1, #2]; }\n"],
        back: Back::Exchanges(1),
        ..NEAR
    },
    Row {
        texts: NAMED,
        writes: &[7],
        wants: &[
            "9 a\nbb\ndone\nexchanges 1\nobject 0: Dir { list = [#1, #2]; }\nobject 1: File { name = \"a\"; size = 10; }\n",
        ],
        back: Back::Exchanges(1),
        ..NEAR
    },
];

#[test]
fn the_link_in_memory_comes_back(rt: HostRuntime) -> Result<(), Fail> {
    expect_rows(rt.alloc(), ROWS)
}
