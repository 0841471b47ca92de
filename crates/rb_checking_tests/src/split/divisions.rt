// Divisions of programs, each with its inputs, its steps and its parts.

use crate::questions::{Question, expect_each};
use std::test::Fail;

/// The interfaces before each text.
const BEFORE: &str =
    "interface F { fun name(): Text; fun size(): Int; fun grow(by: Int); } interface D { fun file(i: Int): F; fun files(): Rows<F>; fun sizes(): Rows<Int>; } ";

/// Programs, and what each is divided into.
static ROWS: [(&str, &str); 16] = [
    (
        "main { val a = 1; batch (D r) { val f = r.file(a + 2); val n = f.size(); val k = a * 2; print(n + k); f.grow(-a); } }",
        "0 a {0 let v0 r.4file(i0+L,);1 let v1! v0.1size();2 let v2 i0+L;3 do v0.0grow(~i0,);} {pass 0;bind 1 n:1;both 2 k=a+L;plain n+k;pass 3;}\n",
    ),
    (
        "main { val b = 2; val a = 1; batch (D r) { print(r.file(a).size() + a); var m = a; m = r.file(b).size() + m + r.file(a).size(); } }",
        "0 a b {0 keep r.4file(i0,).1size()+i0;1 keep r.4file(i1,).1size();2 keep r.4file(i0,).1size();} {plain t0 0:1;plain a;plain m=t1+m+t2 1:1 2:1;}\n",
    ),
    (
        "main { val a = 1; batch (D r) { if (r.file(a).size() > 1) { val n = r.file(0).size(); print(n); } else { r.file(2).grow(a); } print(a); } }",
        "0 a {0 if r.4file(i0,).1size()+L{1 let v0! r.4file(L,).1size();}{2 do r.4file(L,).0grow(i0,);};} {branch 0{bind 1 n:1;plain n;}{pass 2;};plain a;}\n",
    ),
    (
        "main { batch (D r) { for (f in r.files()) { val n = f.size(); f.grow(n); print(n); } for (n in r.sizes()) { print(n); } } }",
        "0 {0 each v0 r.8files(){1 let v1! v0.1size();2 do v0.0grow(v1,);};3 each v2! r.5sizes(){};} {turns 0 f:4{bind 1 n:1;pass 2;plain n;};turns 3 n:1{plain n;};}\n",
    ),
    (
        "main { val k = 3; batch (D r) { var i = 0; while (i < 2) { i = i + 1; } for (x in List<Int>(1, r.file(k).size())) { print(x); } try { print(i); } catch (e) { } } }",
        "0 k {0 keep r.4file(i0,).1size();} {plain L;plain i+L;plain (L,t0,) 0:1;plain ;}\n",
    ),
    (
        "class B { v: Int; remote fun go(n: Int) { batch (D r) { r.file(n).grow(n + 1); } } } main { val b = new B(0); batch (D q) { b.v = q.file(7).size(); } }",
        "0 n {0 do r.4file(i0,).0grow(i0+L,);} {pass 0;}\n1 {0 keep r.4file(L,).1size();} {plain b=t0 0:1;}\n",
    ),
    (
        "main { val by = List<Int>(1, 2, 3); batch (D r) { for (n in by) { r.file(0).grow(n); print(n); } } }",
        "0 by[] {0 over v0 in0{1 do r.4file(L,).0grow(v0,);};} {over 0 n by:0{pass 1;plain n;};}\n",
    ),
    (
        "main { val by = List<Int>(1); batch (D r) { for (n in by) { val s = r.file(n).size(); val k = n * 2; if (s > k) { print(s); r.file(k); } } } }",
        "0 by[] {0 over v0 in0{1 let v1! r.4file(v0,).1size();2 let v2 v0+L;3 if v1+v2{4 do r.4file(v2,);}{};};} {over 0 n by:0{bind 1 s:1;both 2 k=n+L;branch 3{plain s;pass 4;}{};};}\n",
    ),
    (
        "main { val by = List<Int>(1); batch (D r) { for (f in r.files()) { for (n in by) { f.grow(n); } } } }",
        "0 by[] {0 each v0 r.8files(){1 over v1 in0{2 do v0.0grow(v1,);};};} {turns 0 f:4{over 1 n by:0{pass 2;};};}\n",
    ),
    (
        "main { val by = List<Int>(1); batch (D r) { for (n in by) { for (f in r.files()) { f.grow(n); } for (k in r.sizes()) { print(k); } } } }",
        "0 by[] {0 over v0 in0{1 each v1 r.8files(){2 do v1.0grow(v0,);};3 each v2! r.5sizes(){};};} {over 0 n by:0{turns 1 f:4{pass 2;};turns 3 k:1{plain k;};};}\n",
    ),
    (
        "main { val by = List<Int>(1); batch (D r) { for (n in by) { r.file(n); } for (n in by) { for (m in by) { r.file(m).grow(n); } } } }",
        "0 by[] {0 over v0 in0{1 do r.4file(v0,);};2 over v1 in0{3 over v2 in0{4 do r.4file(v2,).0grow(v1,);};};} {over 0 n by:0{pass 1;};over 2 n by:0{over 3 m by:0{pass 4;};};}\n",
    ),
    (
        "main { val by = List<Text>(\"a\"); val to = List<Int>(1); val k = 7; batch (D r) { r.file(k); for (n in to) { r.file(n).grow(k); } for (t in by) { print(t); r.file(len(t)); } } }",
        "0 k to[] by[] {0 do r.4file(i0,);1 over v0 in1{2 do r.4file(v0,).0grow(i0,);};3 over v1 in2{4 do r.4file(~v1,);};} {pass 0;over 1 n to:1{pass 2;};over 3 t by:2{plain t;pass 4;};}\n",
    ),
    (
        "main { val k = 7; val by = List<Int>(1); batch (D r) { for (n in by) { r.file(k).grow(n); } } }",
        "0 by[] k {0 over v0 in0{1 do r.4file(i1,).0grow(v0,);};} {over 0 n by:0{pass 1;};}\n",
    ),
    (
        "main { var by = List<Int>(1); batch (D r) { by = by + by; for (n in by) { print(n); } r.file(0); } }",
        "0 {0 do r.4file(L,);} {plain by=by+by;plain by;pass 0;}\n",
    ),
    (
        "main { val by = List<Int>(1); batch (D r) { for (n in by) { print(n); } r.file(0); } }",
        "0 {0 do r.4file(L,);} {plain by;pass 0;}\n",
    ),
    (
        "class B { remote fun go(by: List<Int>) { batch (D r) { for (n in by) { r.file(n); } } } } main { for (to in List<List<Int>>(List<Int>(1))) { batch (D r) { for (n in to) { r.file(n); } } } }",
        "0 by[] {0 over v0 in0{1 do r.4file(v0,);};} {over 0 n by:0{pass 1;};}\n1 to[] {0 over v0 in0{1 do r.4file(v0,);};} {over 0 n to:0{pass 1;};}\n",
    ),
];

#[test]
fn programs_are_divided(rt: HostRuntime) -> Result<(), Fail> {
    expect_each(rt.alloc(), Question::Divisions, BEFORE, &ROWS)
}
