// Texts that aren't read: each with the first violation, and its place.

use crate::parse::texts::{Form, refusals_are};
use std::test::Fail;

const REFUSED: &[(&str, &str)] = &[
    ("", "the token at offset 0 isn't expected there"),
    ("main", "the token at offset 4 isn't expected there"),
    ("main {", "the token at offset 6 isn't expected there"),
    ("main { } x", "the token at offset 9 isn't expected there"),
    (
        "main { print(1 $ 2); }",
        "no token begins with the byte at offset 15",
    ),
    (
        "main { print(1 }",
        "the token at offset 15 isn't expected there",
    ),
    (
        "main { val a 1; }",
        "the token at offset 13 isn't expected there",
    ),
    (
        "main { f(1); }",
        "the token at offset 8 isn't expected there",
    ),
    (
        "main { a == b == c; }",
        "the token at offset 14 isn't expected there",
    ),
    (
        "main { a < b < c; }",
        "the token at offset 13 isn't expected there",
    ),
    ("main { a.; }", "the token at offset 9 isn't expected there"),
    (
        "main { return 1; a; }",
        "the token at offset 17 isn't expected there",
    ),
    (
        "main{if(a){}else if(b){}}",
        "the token at offset 17 isn't expected there",
    ),
    (
        "main { while (a) { } else { } }",
        "the token at offset 21 isn't expected there",
    ),
    (
        "class A { fun f() { } x: Int; } main { }",
        "the token at offset 22 isn't expected there",
    ),
    (
        "class A { } interface I { } main { }",
        "the token at offset 12 isn't expected there",
    ),
];

#[test]
fn what_the_grammar_lacks_is_refused(rt: HostRuntime) -> Result<(), Fail> {
    refusals_are(rt.alloc(), Form::Program, REFUSED)
}
