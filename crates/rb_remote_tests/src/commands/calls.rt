// `run ADDRESS P`, over links in memory.

use crate::commands::desks::Text;
use crate::commands::dialled::{Back, Row, Waiting, expect_rows};
use crate::commands::texts::{FILES, NAMES, OTHER_SERVICE, SERVICE};
use std::test::Fail;

/// A program that prints two names, and one of two batches with a line between them.
const NAMED: &[Text<'static>] = &[("p", FILES, NAMES)];

const BETWEEN: &[Text<'static>] = &[(
    "p",
    FILES,
    "main { batch (Dir r) { print(r.file(0).size()); } print(5); batch (Dir r) { print(6); } }",
)];

/// A link to a server of the files, of which no exchange fails.
const STEADY: &[Waiting<'static>] = &[Waiting {
    is_child: false,
    service: SERVICE,
    exchanges: &[],
}];

/// A run of that program that gets no link.
const RUN: Row<'static> = Row {
    words: "run a p",
    texts: NAMED,
    dials: &[],
    writes: &[],
    waiting: STEADY,
    wants: &[],
    back: Back::Nothing,
};

const ROWS: &[Row<'static>] = &[
    // A program runs on a service that it is never given.
    Row {
        waiting: &[Waiting {
            is_child: false,
            service: OTHER_SERVICE,
            exchanges: &[],
        }],
        wants: &["0 x\ny\ndone\nexchanges 1\n"],
        back: Back::Exchanges(1),
        ..RUN
    },
    // A target that isn't there is a fault.
    Row {
        words: "run b p",
        wants: &["11 dial fault\n"],
        ..RUN
    },
    Row {
        words: "run q p 5",
        wants: &["11 dial fault\n"],
        ..RUN
    },
    // A text is refused before anything is dialled.
    Row {
        words: "run b q",
        wants: &["3 file fault q\n"],
        ..RUN
    },
    // A dial that is listed fails, and the next one finds the link.
    Row {
        dials: &[1],
        wants: &["11 dial fault\n", "0 a\nbb\ndone\nexchanges 1\n"],
        back: Back::Exchanges(1),
        ..RUN
    },
    // The lines before an exchange that fails are printed.
    Row {
        texts: BETWEEN,
        waiting: &[Waiting {
            is_child: false,
            service: SERVICE,
            exchanges: &[2],
        }],
        wants: &["7 10\n5\nlink fault 1\n"],
        back: Back::Exchanges(1),
        ..RUN
    },
    Row {
        texts: BETWEEN,
        waiting: &[Waiting {
            is_child: false,
            service: SERVICE,
            exchanges: &[1],
        }],
        wants: &["7 link fault 0\n"],
        back: Back::Exchanges(0),
        ..RUN
    },
    Row {
        texts: BETWEEN,
        waiting: &[Waiting {
            is_child: false,
            service: SERVICE,
            exchanges: &[3],
        }],
        wants: &["0 10\n5\n6\ndone\nexchanges 2\n"],
        back: Back::Exchanges(2),
        ..RUN
    },
    // Fuel and faults are those of the program.
    Row {
        words: "run a p 0",
        texts: &[("p", FILES, "main { while (true) { } }")],
        wants: &["1 fault 7 FuelUsed at 3:8\nexchanges 0\n"],
        back: Back::Exchanges(0),
        ..RUN
    },
    Row {
        texts: &[(
            "p",
            FILES,
            "main { batch (Dir r) { for (f in r.files()) { print(f.name()); f.check(100); f.grow(1); } } }",
        )],
        wants: &["1 a\nbb\nfault 8 Thrown \"Big\" at 3:66\nexchanges 1\n"],
        back: Back::Exchanges(1),
        ..RUN
    },
];

#[test]
fn a_program_runs_over_a_link_that_is_dialled(rt: HostRuntime) -> Result<(), Fail> {
    expect_rows(rt.alloc(), ROWS)
}
