// Marks and places, drawn under the text.

use crate::questions::{Question, expect_each};
use std::test::Fail;

/// The interfaces of each text.
static INTERFACES: &str =
    "interface F { fun size(): Int; fun grow(by: Int); } interface D { fun file(i: Int): F; fun files(): Rows<F>; } ";

/// Texts, each with a letter under the defining token of each expression and each statement in a batch:
/// R, C and L for Remote, Constant and Local, s, o and e for a script place, local only and elsewhere.
static PICTURES: [(&str, &str); 5] = [
    (
        "main { val a = 1; batch (D r) { val s = r.file(a).size(); r.file(1).grow(s + a); print(a + 1); } }",
        "                                s       R R    R  R       R R    R  R    R R R s o     C C C      ",
    ),
    (
        "main { batch (D r) { for (f in r.files()) { if (f.size() > 9) { f.grow(1); } print(f.size() + 1); } } }",
        "                     s         R R          s   R R      R R    R R    R s   s     R R      R R        ",
    ),
    (
        "main { var n = 1; batch (D r) { n = 2; if (n > 0) { r.file(n); } while (n < 3) { n = r.file(0).size() + n; } try { throw \"x\"; } catch (e) { print(len(e)); } } }",
        "                                L o C  s   R R R    L L    L s   s      L L C    L e R R    R  R      L L    o     o     C                  o     L   L         ",
    ),
    (
        "class B { l: List<Int>; remote fun f(k: Int) { for (i in this.l) { batch (D r) { r.file(i + k); } } batch (D q) { q.file(k); print(this.l[k]); } } } main { }",
        "                                                                                 R R    R R R s                   R R    R s o     L    LLC                  ",
    ),
    (
        "main { batch (D r) { val fs = r.files(); val x = 1; val y = x + 2; for (f in fs) { f.grow(y); } val z = str(y) + \"s\"; if (y > x) { print(z); } } }",
        "                     s        R R        o       C  o       L L C  s         R     R R    R s   o       L   L  L C    o   L L L    o     L        ",
    ),
];

#[test]
fn each_part_is_where_it_is_drawn(rt: HostRuntime) -> Result<(), Fail> {
    expect_each(rt.alloc(), Question::Marks, INTERFACES, &PICTURES)
}
