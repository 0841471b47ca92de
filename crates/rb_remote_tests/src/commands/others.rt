// `run ADDRESS P` over a link at whose server others change the table.

use crate::client::changes::{Given, Row, lists_of, meddled_link};
use crate::commands::commands::expect_run;
use crate::commands::texts::{SERVICE, TWICE};
use rb_session::MeddledLink;
use std::alloc::Global;
use std::test::Fail;

/// What others do before each exchange, and what is shown then.
const ROWS: &[(&[&[Row<'static>]], &str)] = &[
    // A batch prints what it finds.
    (
        &[&[], &[(1, "size", Given::Int(50))]],
        "0 10\n50\ndone\nexchanges 2\n",
    ),
    // A change of another kind isn't made.
    (
        &[&[], &[(1, "size", Given::Text("x"))]],
        "0 10\n10\ndone\nexchanges 2\n",
    ),
];

/// A link to a server of the files, at which others make these changes.
fn link_of(alloc: Global, lists: &[&[Row<'_>]]) -> Result<MeddledLink, Fail> {
    meddled_link(alloc, SERVICE, lists_of(alloc, lists)?)
}

#[test]
fn a_batch_prints_what_it_finds(rt: HostRuntime) -> Result<(), Fail> {
    let alloc = rt.alloc();
    for (lists, want) in ROWS {
        expect_run(alloc, TWICE, link_of(alloc, lists)?, want)?;
    }
    Ok(())
}
