// `pair P S`, over links in memory in the place of a child.

use crate::commands::desks::Text;
use crate::commands::dialled::{Back, Row, Waiting, expect_rows};
use crate::commands::texts::{CALL, CALL_REPLY, CALL_REQUEST, NUMBER};
use std::test::Fail;

/// The child that serves `s`.
const CHILD: &[Waiting<'static>] = &[Waiting {
    is_child: true,
    service: NUMBER,
    exchanges: &[],
}];

/// The program of one call, and its service.
const TEXTS: &[Text<'static>] = &[("p", "", CALL), ("s", "", NUMBER)];

/// A pair that gets no link.
const PAIR: Row<'static> = Row {
    words: "pair p s",
    texts: TEXTS,
    dials: &[],
    writes: &[],
    waiting: CHILD,
    wants: &[],
    back: Back::Nothing,
};

const ROWS: &[Row<'static>] = &[
    // A pair exchanges with its child.
    Row {
        wants: &["0 7\ndone\nexchanges 1\n"],
        back: Back::Exchange(CALL_REQUEST, CALL_REPLY),
        ..PAIR
    },
    // Texts are refused before a child is started.
    Row {
        texts: &[("p", "", "$"), ("s", "", NUMBER)],
        wants: &["4 lex 1 BadByte at 1:1\n"],
        ..PAIR
    },
    Row {
        texts: &[("p", "", CALL), ("s", "", "$")],
        wants: &["6 service lex 1 BadByte at 1:1\n"],
        ..PAIR
    },
    Row {
        words: "pair p q",
        wants: &["3 file fault q\n"],
        ..PAIR
    },
    Row {
        words: "pair q s",
        wants: &["3 file fault q\n"],
        ..PAIR
    },
    // A child that can't be started is a fault.
    Row {
        words: "pair p s 7",
        waiting: &[],
        wants: &["11 dial fault\n"],
        ..PAIR
    },
];

#[test]
fn a_pair_exchanges_with_its_child(rt: HostRuntime) -> Result<(), Fail> {
    expect_rows(rt.alloc(), ROWS)
}
