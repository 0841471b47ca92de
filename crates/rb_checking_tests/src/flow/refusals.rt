// The answers of admission, drawn under the text.

use crate::questions::{Question, expect_each};
use std::test::Fail;

/// The interfaces and the class before each text.
static BEFORE: &str =
    "interface F { fun size(): Int; fun grow(by: Int); } interface D { fun file(i: Int): F; fun files(): Rows<F>; } class B { n: Int; fun up(): Int { this.n = this.n + 1; return this.n; } remote fun go() { } } ";

/// Texts, and under each the positions that its refusal tells, a, b, c and so on, with the number of the refusal behind
/// them; or 0 for none.
static ROWS: [(&str, &str); 18] = [
    (
        "main { val a = 1; batch (D r) { r.file(a).grow(2); } }",
        "0",
    ),
    (
        "main { batch (D r) { var n = r.file(0).size(); r.file(n).grow(1); } }",
        "                     b                 a              c              1",
    ),
    (
        "main { batch (D r) { var n = r.file(0).size(); var m = r.file(1).size(); n = m; r.file(n).grow(m); } }",
        "                     b                 a                                               c              1",
    ),
    (
        "main { batch (D r) { val b = new B(r.file(0).size()); r.file(b.n); } }",
        "                     b                       a                 c      1",
    ),
    (
        "main { val b = new B(0); batch (D r) { r.file(b.up()); } }",
        "                                                a         2",
    ),
    (
        "main { val b = new B(0); batch (D r) { b.n = r.file(0).size(); r.file(b.up()); } }",
        "                                           b           a                c         1",
    ),
    (
        "main { var k = true; batch (D r) { k = false; if (k) { r.file(0); } } }",
        "                                                  a      b             3",
    ),
    (
        "main { var k = true; batch (D r) { k = false; if (r.file(0).size() > 1) { k = true; } while (k) { r.file(0); } } }",
        "                                                                                             a      b             3",
    ),
    (
        "main { var k = true; batch (D r) { k = k && r.file(0).size() > 1; } }",
        "                                       a      b                      3",
    ),
    (
        "main { batch (D r) { print(r.file(0).size()); print(r.file(1)); } }",
        "                                                      a            4",
    ),
    (
        "main { batch (D r) { batch (D q) { } } }",
        "                     a                  5",
    ),
    (
        "main { val b = new B(0); batch (D r) { b.go(); } }",
        "                                         a        5",
    ),
    (
        "main { batch (D r) { try { r.file(0); } catch (e) { } } }",
        "                             a                           6",
    ),
    (
        "main { batch (D r) { var f = r.file(0); } }",
        "                     a                     7",
    ),
    (
        "main { batch (D r) { var a = r.file(0).size(); var b = r.file(1).size(); r.file(a + b); } }",
        "                     b                 a                                        c          1",
    ),
    (
        "main { val l = List<Int>(1); batch (D r) { for (i in l) { r.file(i).grow(1); } } }",
        "0",
    ),
    (
        "main { var l = List<Int>(1); batch (D r) { l = l + l; for (i in l) { r.file(i).grow(1); } } }",
        "                                                                a      b                     3",
    ),
    (
        "main { batch (D r) { for (i in List<Int>(1)) { r.file(i).grow(1); } } }",
        "                               a                 b                     3",
    ),
];

#[test]
fn each_text_has_the_answer_drawn_under_it(rt: HostRuntime) -> Result<(), Fail> {
    expect_each(rt.alloc(), Question::Refusal, BEFORE, &ROWS)
}
