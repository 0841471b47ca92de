// Which texts are programs, and what refuses the others.

/// What `check` answers on texts: the refusals, each limit, and each form.
pub static LINES: &str = r#"0 accepted|main { }
0 accepted|main { print(1); } // a comment
0 accepted|main { val a = - -1; val b = - -a; }
4 types 1 UnknownName at 1:14|main { print(x); }
4 lex 1 BadByte at 1:16|main { print(1 $ 2); }
4 lex 1 BadByte at 1:16|main { print("a\qb"); }
4 lex 2 OpenText at 1:14|main { print("a); }
4 lex 3 NumberTooLarge at 1:14|main { print(9223372036854775808); }
4 lex 5 TooLong at 1:14|main { print("~a~4097~"); }
4 parse 6 Unexpected at 1:18|main { val a = 1 }
4 parse 6 Unexpected at 1:16|main { print(1 }
4 parse 6 Unexpected at 1:7|main {
4 parse 6 Unexpected at 1:1|
4 parse 6 Unexpected at 1:18|main { return 1; print(2); }
4 parse 6 Unexpected at 1:27|main { if (true) { } else if (true) { } }
4 parse 6 Unexpected at 1:1048577|~                                                                ~16384~
13 file too long p| ~                                                                ~16384~
4 parse 7 TooNested at 1:216|main { val a = ~-~201~1; }
4 parse 7 TooNested at 1:966|main {~ while (true) {~64~
4 parse 7 TooNested at 1:338|class C { v: ~List<~65~Int
0 accepted|main { val a = ~-~200~1; }
0 accepted|main {~ while (true) {~63~~ }~64~
0 accepted|class C { v: ~List<~64~Int~>~64~; } main { }
0 accepted|interface D { fun n(): Int; fun f(a: Int, b: Text): Rows<D>; fun g(); } main { }
0 accepted|class C { v: Int; remote fun m(): Bool { return true; } fun k(o: C): Unit { } } main { }
0 accepted|class F { fun h(a: Int): List<F> { return List<F>(this); } fun g() { } } main { val f = new F(); f.h(1)[0].g(); }
0 accepted|main: Text { val a = 1; var b = "t\n"; b = "u"; return b; }
0 accepted|main { print(len("b")); throw "x"; if (true) { } else { } if (false) { } while (true) { } }
0 accepted|main { for (x in List<Int>()) { } try { throw "x"; } catch (e) { } }
0 accepted|interface D { fun n(); } main { batch (D r) { r.n(); } }
0 accepted|class C { v: C; fun m(a: Int, b: Int): C { val c = this.v.m(a, List<Int>(1, 2)[0]); return new C(c); } } main { }
0 accepted|class C { } main { val a = new C(); val b = List<List<Bool>>(); val c = str(1) + ("d"); }
0 accepted|main { val a = true || false && 1 == 2; val b = "g" != "h"; val c = 1 < 2; val d = 3 >= 4; }
0 accepted|main { val a = 1 <= 2 == (3 > 4); val b = 1 + 2 - 3 * 4 / 5 % 6; val c = !a; }"#;

/// Texts of several lines or of no UTF-8.
pub static ROWS: &str = r#"(main FF)
----
4 lex 4 NotUtf8 at 1:6
====
main {
  val a = 1
}
----
4 parse 6 Unexpected at 3:1
====
main {
  val a = 1;
  print(a + b);
}
----
4 types 1 UnknownName at 3:13"#;

/// A batch whose script is as long as it may be, and one whose script is longer.
pub static LONG: &str = r#"interface I { fun b(~a#: Int, ~99~a99: Int); }
main { batch (I r) { ~r.b(1,1,1,1,1,1,1,1,1,1,1,1,1,1,1,1,1,1,1,1,1,1,1,1,1,1,1,1,1,1,1,1,1,1,1,1,1,1,1,1,1,1,1,1,1,1,1,1,1,1,1,1,1,1,1,1,1,1,1,1,1,1,1,1,1,1,1,1,1,1,1,1,1,1,1,1,1,1,1,1,1,1,1,1,1,1,1,1,1,1,1,1,1,1,1,1,1,1,1,1);~4092~ } }
----
0 accepted
====
interface I { fun b(~a#: Int, ~99~a99: Int); }
main { batch (I r) { ~r.b(1,1,1,1,1,1,1,1,1,1,1,1,1,1,1,1,1,1,1,1,1,1,1,1,1,1,1,1,1,1,1,1,1,1,1,1,1,1,1,1,1,1,1,1,1,1,1,1,1,1,1,1,1,1,1,1,1,1,1,1,1,1,1,1,1,1,1,1,1,1,1,1,1,1,1,1,1,1,1,1,1,1,1,1,1,1,1,1,1,1,1,1,1,1,1,1,1,1,1,1);~4093~ } }
----
5 refused 9 ScriptTooLarge 2:8 4195329"#;
