// The link in memory whose table others change.

ghost use Rattle.std.specs.Prelude.{IfOk};
ghost use Rattle.rb_trees.specs.declared.values.Value.{out-Value};
ghost use Rattle.rb_meaning.specs.Changes.{AllBounded, AreBounded, IsBounded};

use crate::expected::{NO_MEMORY, Told, told};
use crate::hosts::{host_of, lines_told};
use crate::links::exchanges::{Exchanged, Outcome, exchange_told};
use rb_heap::Heap;
use rb_session::MeddledLink;
use rb_trees::{Change, Memory, Seq, Shared, Value};
use std::alloc::Global;

/// A service of one file, which can grow.
const FILE: &[u8] =
    b"class File { name: Text; size: Int; open: Bool; list: List<Int>; fun grow(by: Int) { this.size = this.size + by; } }
object 0: File { name = \"a\"; size = 10; open = false; list = [1]; }
root 0;";

/// A request that has the file grow by 5, and its reply.
const GROW: Exchanged<'_> = (
    b"\x02\x01\x04grow\x00\x01\x10\x00\x00\x26\x00\x00\x00\x23\x01\x20\x01\x0a",
    Outcome::Reply(2),
    b"\x02\x00\x00\x00\x00\x00",
);

/// A payload that has no version, and its reply.
const REFUSED: Exchanged<'_> = (b"\x07", Outcome::Reply(3), b"\x01\x02\x00\x00\x00\x00");

/// A value that a field is to get.
#[derive(Clone, Copy)]
enum Given<'a> {
    Int(i64),
    Bool(bool),
    Text(&'a str),
}

/// A change: the number of an object, a field, and its value.
type Row<'a> = (u32, &'a [u8], Given<'a>);

/// A text as a value. A longer one has no room in a value.
fn text_value(alloc: Global, text: &str) -> Result<Value, Memory>
    ensures { IfOk result (λ value. IsBounded (out-Value value)) }
{
    if text.len() > 4096 {
        return Err(Memory);
    }
    let bytes = Seq::from_slice(alloc, text.as_bytes())?;
    Ok(Value::Text(Shared::new(alloc, bytes)?))
}

/// The value that a field is to get.
fn value_of(alloc: Global, given: Given<'_>) -> Result<Value, Memory>
    ensures { IfOk result (λ value. IsBounded (out-Value value)) }
{
    match given {
        Given::Int(number) => Ok(Value::Int(number)),
        Given::Bool(truth) => Ok(Value::Bool(truth)),
        Given::Text(text) => text_value(alloc, text),
    }
}

/// The changes of rows.
fn changes_of(alloc: Global, rows: &[Row<'_>]) -> Result<Seq<Change>, Memory>
    ensures { IfOk result AreBounded }
{
    let mut changes = Seq::new(alloc);
    'rows: for (object, field, given) in rows {
        let value = value_of(alloc, *given)?;
        let field = Seq::from_slice(alloc, field)?;
        changes.push(Change {
            object: *object,
            field,
            value,
        })?;
    }
    Ok(changes)
}

/// What others do before each exchange.
fn others_of(alloc: Global, lists: &[&[Row<'_>]]) -> Result<Seq<Seq<Change>>, Memory>
    ensures { IfOk result AllBounded }
{
    let mut others = Seq::new(alloc);
    'lists: for rows in lists {
        others.push(changes_of(alloc, rows)?)?;
    }
    Ok(others)
}

/// Says what goes otherwise in the lines of the last table.
fn last_told(alloc: Global, tables: &[Heap], want: &[u8]) -> Told {
    match tables.last() {
        Some(table) => lines_told(alloc, table, want),
        None => Err("no table is kept"),
    }
}

/// An exchange, with the lines of the table that the request finds and of the one that it leaves.
type Step<'a> = (Exchanged<'a>, &'a [u8], &'a [u8]);

/// Says what goes otherwise in an exchange over a link.
fn step_told(alloc: Global, link: &mut MeddledLink, (exchanged, found, left): &Step<'_>) -> Told {
    exchange_told(link, exchanged)
        .and(last_told(alloc, link.found_tables(), found))
        .and(last_told(alloc, link.left_tables(), left))
        .and(lines_told(alloc, link.host().table(), left))
}

/// Says what goes otherwise in exchanges over a new link, or where that hasn't just these pairs and tables at last.
fn steps_told(alloc: Global, link: &mut MeddledLink, steps: &[Step<'_>]) -> Told {
    let mut exchanged = Ok(());
    for step in steps {
        exchanged = exchanged.and(step_told(alloc, link, step));
    }
    let are_kept = link.pairs().len() == steps.len()
        && link.found_tables().len() == steps.len()
        && link.left_tables().len() == steps.len();
    exchanged.and(told(are_kept, "more or fewer pairs or tables"))
}

/// The same over a link to the file, to which others do this.
fn case_told(alloc: Global, others: Seq<Seq<Change>>, steps: &[Step<'_>]) -> Told
    requires { AllBounded others }
{
    match host_of(alloc, FILE) {
        Ok(host) => steps_told(alloc, &mut MeddledLink::make(alloc, host, others), steps),
        Err(why) => Err(why),
    }
}

/// What others do before each exchange, and exchanges.
type Case<'a> = (&'a [&'a [Row<'a>]], &'a [Step<'a>]);

const CASES: &[Case<'_>] = &[
    // A request finds what others left.
    (
        &[
            &[(0, b"size", Given::Int(20))],
            &[
                (0, b"name", Given::Text("bb")),
                (0, b"open", Given::Bool(true)),
            ],
            &[],
            // A refused request finds the change too, and leaves it.
            &[(0, b"size", Given::Int(1)), (0, b"size", Given::Int(2))],
        ],
        &[
            (
                GROW,
                b"object 0: File { name = \"a\"; size = 20; open = false; list = [1]; }\n",
                b"object 0: File { name = \"a\"; size = 25; open = false; list = [1]; }\n",
            ),
            (
                GROW,
                b"object 0: File { name = \"bb\"; size = 25; open = true; list = [1]; }\n",
                b"object 0: File { name = \"bb\"; size = 30; open = true; list = [1]; }\n",
            ),
            (
                GROW,
                b"object 0: File { name = \"bb\"; size = 30; open = true; list = [1]; }\n",
                b"object 0: File { name = \"bb\"; size = 35; open = true; list = [1]; }\n",
            ),
            (
                REFUSED,
                b"object 0: File { name = \"bb\"; size = 2; open = true; list = [1]; }\n",
                b"object 0: File { name = \"bb\"; size = 2; open = true; list = [1]; }\n",
            ),
            // No list is left.
            (
                GROW,
                b"object 0: File { name = \"bb\"; size = 2; open = true; list = [1]; }\n",
                b"object 0: File { name = \"bb\"; size = 7; open = true; list = [1]; }\n",
            ),
        ],
    ),
    // A change that doesn't suit the table is skipped.
    (
        &[&[
            (0, b"size", Given::Text("20")),
            (0, b"size", Given::Bool(true)),
            (0, b"name", Given::Int(20)),
            (0, b"list", Given::Int(20)),
            (0, b"date", Given::Int(20)),
            (1, b"size", Given::Int(20)),
            (0, b"open", Given::Bool(true)),
        ]],
        &[(
            GROW,
            b"object 0: File { name = \"a\"; size = 10; open = true; list = [1]; }\n",
            b"object 0: File { name = \"a\"; size = 15; open = true; list = [1]; }\n",
        )],
    ),
];

#[test]
fn a_request_finds_what_others_left(rt: HostRuntime) -> Told {
    let mut told = Ok(());
    for (lists, steps) in CASES {
        told = told.and(match others_of(rt.alloc(), lists) {
            Ok(others) => case_told(rt.alloc(), others, steps),
            Err(_) => Err(NO_MEMORY),
        });
    }
    told
}
