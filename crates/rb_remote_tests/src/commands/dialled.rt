// Commands over a Dial in memory, whose links lead to servers in the same process.

use crate::client::answers::other;
use crate::client::hosts::failing_link;
use crate::commands::commands::expect_over;
use crate::commands::desks::{Asked, Text};
use rb_base::Link;
use rb_heap::Heap;
use rb_session::{AnyLink, Exchange, FailingLink, MemoryDial, Target};
use rb_trees::Seq;
use std::alloc::Global;
use std::test::Fail;

/// A link that waits, to a server of a service: under the child that serves `s`, or else under the address `a`. The exchanges of
/// these numbers fail.
#[derive(Clone, Copy)]
pub struct Waiting<'a> {
    pub is_child: bool,
    pub service: &'a str,
    pub exchanges: &'a [u64],
}

/// What came back to a Dial.
#[derive(Clone, Copy)]
pub enum Back<'a> {
    /// No link.
    Nothing,
    /// One link, over which there were so many exchanges.
    Exchanges(usize),
    /// One link, over which there was one exchange, of this request and this reply.
    Exchange(&'a [u8], &'a [u8]),
}

/// Runs of a command, one after the other over one Dial: the dials and the writes that fail, the links that wait, what each run
/// shows, and what comes back.
#[derive(Clone, Copy)]
pub struct Row<'a> {
    pub words: &'a str,
    pub texts: &'a [Text<'a>],
    pub dials: &'a [u64],
    pub writes: &'a [u64],
    pub waiting: &'a [Waiting<'a>],
    pub wants: &'a [&'a str],
    pub back: Back<'a>,
}

/// Adds links that wait to a Dial.
pub fn add_links(
    alloc: Global,
    dial: &mut MemoryDial<FailingLink>,
    all: &[Waiting<'_>],
) -> Result<(), Fail> {
    for waiting in all {
        let link = failing_link(alloc, waiting.service, waiting.exchanges)?;
        let target = if waiting.is_child {
            Target::Child(Seq::from_slice(alloc, b"s")?)
        } else {
            Target::Address(Seq::from_slice(alloc, b"a")?)
        };
        dial.add(target, link)?;
    }
    Ok(())
}

/// The exchanges of the one link that came back, and the table of its server; or None where none came back.
pub fn came_back(dial: &MemoryDial<FailingLink>) -> Option<(&[Exchange], Option<&Heap>)> {
    match dial.came_back() {
        [AnyLink::Dialled(link)] => Some((link.pairs(), link.table())),
        [AnyLink::Around(link)] => Some((link.pairs(), link.table())),
        _ => None,
    }
}

/// Whether this came back.
fn is_back(dial: &MemoryDial<FailingLink>, back: Back<'_>) -> bool {
    let Some((pairs, _table)) = came_back(dial) else {
        return matches!(back, Back::Nothing);
    };
    match (pairs, back) {
        (pairs, Back::Exchanges(count)) => pairs.len() == count,
        ([pair], Back::Exchange(request, reply)) => {
            pair.request.as_slice() == request && pair.reply.as_slice() == reply
        }
        _ => false,
    }
}

/// Fails where a row doesn't hold over a new Dial.
fn expect_row(
    alloc: Global,
    row: &Row<'_>,
    dial: &mut MemoryDial<FailingLink>,
) -> Result<(), Fail> {
    add_links(alloc, dial, row.waiting)?;
    for want in row.wants {
        let asked = Asked {
            words: row.words,
            texts: row.texts,
            reads: &[],
            writes: row.writes,
            said: want,
            rest: "",
        };
        expect_over(alloc, &asked, dial)?;
    }
    if is_back(dial, row.back) {
        return Ok(());
    }
    Err(other("link that came back", row.words))
}

/// Fails at the first row that doesn't hold.
pub fn expect_rows(alloc: Global, rows: &[Row<'_>]) -> Result<(), Fail> {
    for row in rows {
        let mut dial = MemoryDial::make(alloc, Seq::from_slice(alloc, row.dials)?);
        expect_row(alloc, row, &mut dial)?;
    }
    Ok(())
}
