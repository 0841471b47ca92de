// Runs over links to a server, and to outputs of which a write fails.

use crate::client::answers::same_answer;
use crate::client::hosts::{FILES, failing_link, host_of};
use crate::client::runs::{Over, ran};
use rb_base::Link;
use rb_session::MemoryLink;
use std::alloc::Global;
use std::test::Fail;

/// What `main` answers with so much fuel, over a link of which these exchanges fail, or one that never fails where there are
/// none, to an output of which these writes fail.
#[derive(Clone, Copy, Debug)]
struct Row<'a> {
    main: &'a str,
    fuel: u64,
    exchanges: Option<&'a [u64]>,
    writes: &'a [u64],
    want: &'a str,
}

/// What a row's text answers over a link.
fn over<L: Link + Drop>(alloc: Global, row: &Row<'_>, mut link: L) -> Result<String, Fail> {
    let mut way = Over {
        link: &mut link,
        fuel: row.fuel,
        failing: row.writes,
    };
    ran(alloc, row.main, &mut way)
}

/// What a row's text answers.
fn answered(alloc: Global, row: &Row<'_>) -> Result<String, Fail> {
    match row.exchanges {
        Some(exchanges) => over(alloc, row, failing_link(alloc, FILES, exchanges)?),
        None => over(alloc, row, MemoryLink::make(alloc, host_of(alloc, FILES)?)?),
    }
}

/// Fails at the first row that has another answer.
fn expect_rows(alloc: Global, rows: &[Row<'_>]) -> Result<(), Fail> {
    for row in rows {
        same_answer(row, answered(alloc, row)?.as_str(), row.want)?;
    }
    Ok(())
}

/// Two batches, and a line between them.
const BETWEEN: &str =
    "main { batch (Dir r) { print(r.file(0).name()); print(r.file(1).name()); } print(5); batch (Dir q) { print(q.file(0).size()); } }";

const TWO: Row<'static> = Row {
    main: BETWEEN,
    fuel: 1000,
    exchanges: None,
    writes: &[],
    want: "",
};

/// A batch with a loop of its own, which needs two units.
const LOOP: &str =
    "main { print(1); batch (Dir r) { var i = 0; while (i < 2) { print(i); i = i + 1; } print(r.file(0).size()); } print(3); }";

const COUNTED: Row<'static> = Row { main: LOOP, ..TWO };

const ROWS: &[Row<'static>] = &[
    // An exchange that is listed fails behind the lines before it.
    Row {
        exchanges: Some(&[]),
        want: "ok 2 done\na\nbb\n5\n10\n",
        ..TWO
    },
    Row {
        exchanges: Some(&[1]),
        want: "link fault 0\n",
        ..TWO
    },
    Row {
        exchanges: Some(&[2]),
        want: "link fault 1\na\nbb\n5\n",
        ..TWO
    },
    Row {
        exchanges: Some(&[3]),
        want: "ok 2 done\na\nbb\n5\n10\n",
        ..TWO
    },
    // A write that fails ends the run.
    Row {
        writes: &[1],
        want: "write fault\n",
        ..TWO
    },
    Row {
        writes: &[2],
        want: "write fault\na\n",
        ..TWO
    },
    Row {
        writes: &[3],
        want: "write fault\na\nbb\n",
        ..TWO
    },
    Row {
        writes: &[4],
        want: "write fault\na\nbb\n5\n",
        ..TWO
    },
    Row {
        writes: &[5],
        want: "ok 2 done\na\nbb\n5\n10\n",
        ..TWO
    },
    // A loop of the client takes fuel.
    Row {
        fuel: 0,
        want: "ok 1 fault 7 at 3:45\n1\n",
        ..COUNTED
    },
    Row {
        fuel: 1,
        want: "ok 1 fault 7 at 3:45\n1\n0\n",
        ..COUNTED
    },
    Row {
        fuel: 2,
        want: "ok 1 done\n1\n0\n1\n10\n3\n",
        ..COUNTED
    },
    Row {
        fuel: 3,
        want: "ok 1 done\n1\n0\n1\n10\n3\n",
        ..COUNTED
    },
];

#[test]
fn runs_end_where_their_links_outputs_and_fuel_do(rt: HostRuntime) -> Result<(), Fail> {
    expect_rows(rt.alloc(), ROWS)
}
