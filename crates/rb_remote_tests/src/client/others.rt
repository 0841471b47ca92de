// Runs over a link at whose server others change the table between two batches, beside the unsplit run with the same changes.

use crate::client::answers::same_answer;
use crate::client::changes::{Given, Row, lists_by_chance, lists_of, meddled_link};
use crate::client::hosts::FILES;
use crate::client::runs::{Unsplit, ran, ran_over};
use rb_heap::Heap;
use rb_store::{print_table, read_service};
use rb_trees::{Change, Seq};
use std::alloc::Global;
use std::test::Fail;

/// What was answered, and behind it the table.
fn with_table(alloc: Global, answer: &str, table: &Heap) -> Result<String, Fail> {
    let lines = print_table(alloc, table)?;
    let lines = str::from_utf8(lines.as_slice())?;
    Ok(format!(in alloc; "{answer}{lines}")?)
}

/// What `main` answers over a link at whose server others make these changes, and the table then.
fn meddled(alloc: Global, main: &str, others: Seq<Seq<Change>>) -> Result<String, Fail> {
    let mut link = meddled_link(alloc, FILES, others)?;
    let answer = ran_over(alloc, main, &mut link)?;
    with_table(alloc, answer.as_str(), link.host().table())
}

/// What the unsplit run of `main` answers on the service where others make these changes, and the table then.
fn unsplit(alloc: Global, main: &str, others: &Seq<Seq<Change>>) -> Result<String, Fail> {
    let (service, mut table) = read_service(alloc, FILES.as_bytes())?;
    let mut way = Unsplit {
        service: &service,
        table: &mut table,
        others,
    };
    let answer = ran(alloc, main, &mut way)?;
    with_table(alloc, answer.as_str(), &table)
}

/// What the two answer where others make these changes. Fails where one answers otherwise than the other.
fn alike(alloc: Global, main: &str, others: Seq<Seq<Change>>) -> Result<String, Fail> {
    let whole = unsplit(alloc, main, &others)?;
    let apart = meddled(alloc, main, others)?;
    same_answer(&main, apart.as_str(), whole.as_str())?;
    Ok(whole)
}

/// A batch that prints a size, twice.
const TWICE: &str =
    "main { batch (Dir r) { print(r.file(0).size()); } batch (Dir r) { print(r.file(0).size()); } }";

/// A name is read in one batch, and a new one written in another.
const LOST: &str =
    "main { var name = \"\"; batch (Dir r) { val old = r.file(0).name(); name = old; } batch (Dir r) { r.file(0).rename(name + \"!\"); } }";

/// The same in one batch.
const MENDED: &str =
    "main { batch (Dir r) { print(1); } batch (Dir r) { val old = r.file(0).name(); r.file(0).rename(old + \"!\"); } }";

/// A file grows in a batch that a local fault ends, and again in another.
const FAULTS: &str =
    "main { try { batch (Dir r) { r.file(0).grow(1); var z = 0; print(1 / z); } } catch (e) { print(e); } batch (Dir r) { r.file(0).grow(1); print(r.file(0).size()); } }";

/// A program, the changes that others make before each batch, and what it answers, with the table then.
type Case<'a> = (&'a str, &'a [&'a [Row<'a>]], &'a str);

const CASES: &[Case<'static>] = &[
    // Each batch begins on the table that it finds.
    (
        TWICE,
        &[&[], &[(1, "size", Given::Int(50))]],
        "ok 2 done\n10\n50\nobject 0: Dir { list = [#1, #2]; }\nobject 1: File { name = \"a\"; size = 50; }\nobject 2: File { name = \"bb\"; size = 200; }\n",
    ),
    // What others do first is found twice.
    (
        TWICE,
        &[&[(1, "size", Given::Int(-1)), (1, "size", Given::Int(7))]],
        "ok 2 done\n7\n7\nobject 0: Dir { list = [#1, #2]; }\nobject 1: File { name = \"a\"; size = 7; }\nobject 2: File { name = \"bb\"; size = 200; }\n",
    ),
    // A change that doesn't suit is skipped.
    (
        TWICE,
        &[
            &[(9, "size", Given::Int(1))],
            &[
                (1, "date", Given::Int(1)),
                (0, "list", Given::Int(1)),
                (1, "name", Given::Bool(true)),
                (1, "size", Given::Text("x")),
            ],
        ],
        "ok 2 done\n10\n10\nobject 0: Dir { list = [#1, #2]; }\nobject 1: File { name = \"a\"; size = 10; }\nobject 2: File { name = \"bb\"; size = 200; }\n",
    ),
    // An update over two batches may be lost, and one in one batch is not.
    (
        LOST,
        &[&[], &[(1, "name", Given::Text("b"))]],
        "ok 2 done\nobject 0: Dir { list = [#1, #2]; }\nobject 1: File { name = \"a!\"; size = 10; }\nobject 2: File { name = \"bb\"; size = 200; }\n",
    ),
    (
        MENDED,
        &[&[], &[(1, "name", Given::Text("b"))]],
        "ok 2 done\n1\nobject 0: Dir { list = [#1, #2]; }\nobject 1: File { name = \"b!\"; size = 10; }\nobject 2: File { name = \"bb\"; size = 200; }\n",
    ),
    // A local fault leaves the remote part of what was found.
    (
        FAULTS,
        &[
            &[(1, "size", Given::Int(3))],
            &[(1, "size", Given::Int(30))],
        ],
        "ok 2 done\nDivZero\n31\nobject 0: Dir { list = [#1, #2]; }\nobject 1: File { name = \"a\"; size = 31; }\nobject 2: File { name = \"bb\"; size = 200; }\n",
    ),
];

#[test]
fn each_batch_begins_on_the_table_that_it_finds(rt: HostRuntime) -> Result<(), Fail> {
    let alloc = rt.alloc();
    for (main, lists, want) in CASES {
        let answer = alike(alloc, main, lists_of(alloc, lists)?)?;
        same_answer(main, answer.as_str(), want)?;
    }
    Ok(())
}

/// Batches that read, grow, rename and fault by what they find.
const BUSY: &str =
    "main { var i = 0; while (i < 3) { try { batch (Dir r) { for (f in r.files()) { val s = f.size(); if (s > 500) { f.grow(0 - 400); } f.grow(1); print(f.name() + str(s)); f.check(900); } } } catch (e) { print(e); } i = i + 1; } batch (Dir r) { val n = r.file(1).name(); r.file(0).rename(n + \"+\"); print(1000 / (r.file(0).size() - 7)); } batch (Dir r) { print(r.file(0).name()); } }";

/// Fails at the first of so many seeds whose changes the two answer otherwise.
fn expect_alike_by_chance(alloc: Global, count: u64) -> Result<(), Fail> {
    for seed in 0..count {
        let _answer = alike(alloc, BUSY, lists_by_chance(alloc, seed, 5)?)?;
    }
    Ok(())
}

#[test]
fn lists_by_chance_are_met_alike(rt: HostRuntime) -> Result<(), Fail> {
    expect_alike_by_chance(rt.alloc(), 100)
}
