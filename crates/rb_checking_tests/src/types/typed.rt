// What is known of a program that is typed.

use crate::questions::{Question, expect_told};
use std::alloc::Global;
use std::test::Fail;

/// Questions to texts, and what is told.
static ROWS: [(Question, &str, &str); 14] = [
    (Question::TypeAt(19), "main: Int { return 7; }", "Int"),
    (Question::TypeAt(6), "main: Int { return 7; }", "none"),
    (Question::TypeAt(21), "main { val a = true; a; }", "Bool"),
    (Question::TypeAt(11), "main { val a = true; a; }", "none"),
    (
        Question::TypeAt(32),
        "main { val a = List<Text>(\"x\"); a; }",
        "List",
    ),
    (
        Question::TypeAt(26),
        "class C { v: C; fun f() { this; } } main { }",
        "C",
    ),
    (
        Question::TypeAt(48),
        "class C { fun f(a: Int) { while (a < 1) { throw \"x\"; } } } main { }",
        "Text",
    ),
    (
        Question::TypeAt(37),
        "interface D { } main { batch (D r) { r; } }",
        "D",
    ),
    (
        Question::TypeAt(23),
        "interface D { } main { batch (D r) { r; } }",
        "none",
    ),
    (Question::Batches, "main: Int { return 7; }", "0"),
    (
        Question::Batches,
        "interface D { } main { batch (D r) { } batch (D r) { } }",
        "2",
    ),
    (
        Question::Batches,
        "interface D { } main { while (true) { batch (D r) { batch (D s) { } } } }",
        "2",
    ),
    (
        Question::Batches,
        "interface D { } class C { remote fun f() { batch (D r) { } } } main { batch (D r) { } }",
        "2",
    ),
    (Question::ResultAt, "main: Int { return 7; }", "6"),
];

/// Fails where something else is told of a text than stands beside it.
fn expect_rows(alloc: Global, rows: &[(Question, &str, &str)]) -> Result<(), Fail> {
    for (question, text, wanted) in rows {
        expect_told(alloc, *question, "", text, wanted)?;
    }
    Ok(())
}

#[test]
fn types_batches_and_the_program_are_found(rt: HostRuntime) -> Result<(), Fail> {
    expect_rows(rt.alloc(), &ROWS)
}
