// Which programs are typed, and which violation is the first.

/// What `check` answers on texts: names that are taken, unknown or out of scope, types at their places, expressions and
/// operands of their types, counts, assignments, returns, and which of two violations counts.
pub static LINES: &str = r#"4 types 2 NameTaken at 1:27|interface D { } interface D { } main { }
4 types 2 NameTaken at 1:23|interface D { } class D { } main { }
4 types 2 NameTaken at 1:19|class C { } class C { } main { }
4 types 2 NameTaken at 1:28|interface D { fun n(); fun n(); } main { }
4 types 2 NameTaken at 1:27|class C { fun f() { } fun f() { } } main { }
4 types 2 NameTaken at 1:19|class C { v: Int; v: Text; } main { }
4 types 2 NameTaken at 1:29|interface D { fun n(a: Int, a: Int); } main { }
4 types 2 NameTaken at 1:33|class C { fun f(a: Int, b: Int, a: Int) { } } main { }
4 types 2 NameTaken at 1:19|main { val a = 1; val a = 2; }
4 types 2 NameTaken at 1:19|main { var a = 1; var a = 2; }
4 types 2 NameTaken at 1:29|main { val x = List<Int>(); for (x in x) { } }
4 types 2 NameTaken at 1:19|main { val e = 1; try { } catch (e) { } }
4 types 2 NameTaken at 1:35|interface D { } main { val r = 1; batch (D r) { } }
4 types 2 NameTaken at 1:27|class C { fun f(a: Int) { val a = 1; } } main { }
4 types 2 NameTaken at 1:38|main { var a = 1; if (true) { a = 2; val a = 3; } }
0 accepted|class C { C: Int; fun C(C: Int) { } } main { val C = new C(1); }
0 accepted|class C { v: Int; fun v(): Int { return this.v; } } main { }
0 accepted|interface D { fun n(); } interface E { fun n(); } main { }
4 types 1 UnknownName at 1:14|main { print(x); }
4 types 1 UnknownName at 1:14|main { print(this.v); }
4 types 1 UnknownName at 1:8|main { x = 1; }
4 types 1 UnknownName at 1:41|class C { v: Int; fun f(): Int { return v; } } main { }
4 types 1 UnknownName at 1:24|interface D { fun n(): E; } main { }
4 types 1 UnknownName at 1:24|class C { v: List<List<E>>; } main { }
4 types 1 UnknownName at 1:7|main: E { }
4 types 1 UnknownName at 1:21|main { val a = List<E>(); }
4 types 1 UnknownName at 1:45|class C { } main { val c = new C(); print(c.v); }
4 types 1 UnknownName at 1:48|class C { v: Int; } main { val c = new C(1); c.v(); }
4 types 1 UnknownName at 1:40|interface D { } main { batch (D r) { r.n(); } }
4 types 1 UnknownName at 1:16|main { val c = new C(); }
4 types 1 UnknownName at 1:32|interface D { } main { val c = new D(); }
4 types 1 UnknownName at 1:8|main { batch (D r) { } }
4 types 1 UnknownName at 1:20|class C { } main { batch (C r) { } }
0 accepted|class C { fun f(b: B): C { return b.c; } } class B { c: C; } main { }
0 accepted|interface D { fun n(e: E): Rows<D>; } interface E { } main { }
4 types 7 TypeNotHere at 1:24|interface D { fun n(a: C); } class C { } main { }
4 types 7 TypeNotHere at 1:24|interface D { fun n(a: Unit); } main { }
4 types 7 TypeNotHere at 1:24|interface D { fun n(a: Rows<Int>); } main { }
4 types 7 TypeNotHere at 1:24|interface D { fun n(): List<Int>; } main { }
4 types 7 TypeNotHere at 1:24|interface D { fun n(): Rows<List<Int>>; } main { }
4 types 7 TypeNotHere at 1:24|interface D { fun n(): C; } class C { } main { }
4 types 7 TypeNotHere at 1:30|interface D { } class C { v: D; } main { }
4 types 7 TypeNotHere at 1:14|class C { v: Unit; } main { }
4 types 7 TypeNotHere at 1:14|class B { v: Rows<Int>; } main { }
4 types 7 TypeNotHere at 1:19|class C { v: List<Rows<Int>>; } main { }
4 types 7 TypeNotHere at 1:20|class C { fun f(a: Unit) { } } main { }
4 types 7 TypeNotHere at 1:20|class C { fun f(): Rows<Int> { } } main { }
4 types 7 TypeNotHere at 1:19|class C { } main: C { }
4 types 7 TypeNotHere at 1:7|main: Unit { }
4 types 7 TypeNotHere at 1:7|main: List<Int> { }
4 types 7 TypeNotHere at 1:21|main { val a = List<Unit>(); }
0 accepted|interface D { fun n(a: Int, b: D): Rows<Text>; fun m(): D; fun k(); } main { }
0 accepted|class C { v: List<C>; fun f(a: List<List<Text>>): List<C> { return this.v; } } main { }
0 accepted|class C { fun f(): Unit { } } main { }
0 accepted|main: Int { return 1; }
0 accepted|main: Bool { return !false; }
4 types 3 WrongType at 1:57|interface D { fun n(); } main { batch (D r) { val a = r.n(); } }
4 types 3 WrongType at 1:57|interface D { fun n(); } main { batch (D r) { var a = r.n(); } }
4 types 3 WrongType at 1:14|main { print(List<Int>()); }
4 types 3 WrongType at 1:26|class C { } main { print(new C()); }
4 types 3 WrongType at 1:14|main { throw 1; }
4 types 3 WrongType at 1:12|main { if (1) { } }
4 types 3 WrongType at 1:15|main { while ("a") { } }
4 types 3 WrongType at 1:18|main { for (x in 1) { } }
4 types 3 WrongType at 1:23|main { var a = 1; a = true; }
4 types 3 WrongType at 1:52|class C { v: Int; } main { val c = new C(1); c.v = "a"; }
4 types 3 WrongType at 1:25|main { val a = 1; print(a.v); }
4 types 3 WrongType at 1:44|interface D { } main { batch (D r) { print(r.v); } }
4 types 3 WrongType at 1:9|main { (1).f(); }
4 types 3 WrongType at 1:8|main { List<Int>().f(); }
4 types 3 WrongType at 1:42|class B { v: Int; } main { val b = new B(true); }
4 types 3 WrongType at 1:46|class C { fun f(a: Int, b: Text) { this.f(1, 2); } } main { }
4 types 3 WrongType at 1:69|interface D { fun n(a: Text): Int; } main { batch (D r) { print(r.n(1)); } }
4 types 3 WrongType at 1:29|main { val a = List<Int>(1, "b"); }
4 types 3 WrongType at 1:20|main: Int { return true; }
4 types 3 WrongType at 1:15|main { return 1; }
4 types 3 WrongType at 1:34|class C { fun f(): Text { return 1; } } main { }
4 types 3 WrongType at 1:45|class C { fun g() { } fun f() { return this.g(); } } main { }
5 refused 4 Escapes 1:64|interface D { fun n(): Rows<D>; } main { batch (D r) { print(r.n()); print(r); for (x in r.n()) { print(x); } } }
0 accepted|class C { v: Text; } main { val c = new C("a"); c.v = c.v + "b"; throw c.v; }
0 accepted|main: Text { return "a"; }
4 types 3 WrongType at 1:20|main { val a = 1 + true; }
4 types 3 WrongType at 1:16|main { val a = true + 1; }
4 types 3 WrongType at 1:22|main { val a = "a" + 1; }
4 types 3 WrongType at 1:30|main { val a = List<Int>() + List<Text>(); }
4 types 3 WrongType at 1:20|main { val a = 1 - "b"; }
4 types 3 WrongType at 1:16|main { val a = "a" * 1; }
4 types 3 WrongType at 1:16|main { val a = "a" / "b"; }
4 types 3 WrongType at 1:20|main { val a = 1 % true; }
4 types 3 WrongType at 1:21|main { val a = 1 == true; }
4 types 3 WrongType at 1:16|main { val a = List<Int>() != List<Int>(); }
4 types 3 WrongType at 1:16|main { val a = true < false; }
4 types 3 WrongType at 1:16|main { val a = "a" >= "b"; }
4 types 3 WrongType at 1:24|main { val a = true && 1; }
4 types 3 WrongType at 1:16|main { val a = 1 || true; }
4 types 3 WrongType at 1:17|main { val a = !1; }
4 types 3 WrongType at 1:17|main { val a = -true; }
4 types 3 WrongType at 1:31|main { val a = - -1; val b = !-a; }
4 types 3 WrongType at 1:16|main { val a = 1[0]; }
4 types 3 WrongType at 1:29|main { val a = List<Int>(1)[true]; }
4 types 3 WrongType at 1:20|main { val a = len(1); }
4 types 3 WrongType at 1:20|main { val a = str("a"); }
0 accepted|main { val a = List<Int>(1) + List<Int>(2); print(a[0] + len(a) * len("b")); }
0 accepted|main { print(str(1) + str(true) == "1true" && !(1 < 2) || "a" != "b"); }
4 types 4 WrongCount at 1:36|class B { v: Int; } main { val b = new B(); }
4 types 4 WrongCount at 1:36|class B { v: Int; } main { val b = new B(1, 2); }
4 types 4 WrongCount at 1:26|class C { fun f() { this.f(1); } } main { }
4 types 4 WrongCount at 1:66|interface D { fun n(a: Int): Int; } main { batch (D r) { print(r.n()); } }
4 types 5 NotAssignable at 1:21|main { val a = 1; a = 2; }
4 types 5 NotAssignable at 1:10|main { 1 = 2; }
4 types 5 NotAssignable at 1:26|class C { fun f() { this = this; } } main { }
4 types 5 NotAssignable at 1:29|class C { fun f(a: Int) { a = 1; } } main { }
4 types 5 NotAssignable at 1:35|main { for (x in List<Int>()) { x = 1; } }
4 types 5 NotAssignable at 1:24|main { List<Int>(1)[0] = 1; }
4 types 5 NotAssignable at 1:40|interface D { } main { batch (D r) { r = r; } }
4 types 6 MissingReturn at 1:1|main: Int { }
4 types 6 MissingReturn at 1:1|main: Text { print("a"); }
4 types 6 MissingReturn at 1:15|class C { fun f(): Int { } } main { }
4 types 6 MissingReturn at 1:22|class C { remote fun f(): List<Int> { val a = 1; } } main { }
4 types 8 NotAllowedHere at 1:37|interface D { } class B { fun f() { batch (D r) { } } } main { }
4 types 8 NotAllowedHere at 1:45|class C { remote fun f() { } fun g() { this.f(); } } main { }
4 types 8 NotAllowedHere at 1:71|class C { remote fun f(): Int { return 1; } fun g(c: C) { print(1 + c.f()); } } main { }
0 accepted|class C { remote fun f() { } } main { new C().f(); }
0 accepted|class C { remote fun f() { this.f(); } } main { }
0 accepted|interface D { } class C { remote fun f() { batch (D r) { } } } main { batch (D r) { } }
0 accepted|class C { fun f(n: Int): Int { return this.f(n - 1); } } main { }
0 accepted|class C { fun f(): Int { return this.g(); } fun g(): Int { return 1; } } main { }
4 types 3 WrongType at 1:38|class C { fun f(): Int { return this.g(); } fun g(): Text { return "a"; } } main { }
0 accepted|class C { fun f(): B { return new B(); } } class B { } main { new C().f(); }
0 accepted|main { if (true) { val a = 1; } else { val a = true; } val a = "t"; print(a + "u"); }
4 types 1 UnknownName at 1:46|main { if (true) { val a = 1; } else { print(a); } }
4 types 1 UnknownName at 1:42|main { while (true) { val a = 1; } print(a); }
0 accepted|main { for (a in List<Int>()) { print(a + 1); } for (a in List<Text>()) { print(a + "b"); } }
4 types 1 UnknownName at 1:41|main { for (a in List<Int>()) { } print(a); }
0 accepted|main { try { val a = 1; } catch (a) { print(a + "b"); } val a = 1; print(a + 1); }
4 types 1 UnknownName at 1:45|main { try { val a = 1; } catch (e) { print(a); } }
4 types 1 UnknownName at 1:36|main { try { } catch (e) { } print(e); }
4 types 3 WrongType at 1:38|main { try { } catch (e) { print(e + 1); } }
4 types 5 NotAssignable at 1:30|main { try { } catch (e) { e = "a"; } }
4 types 2 NameTaken at 1:28|main { try { } catch (e) { val e = 1; } }
0 accepted|main { try { } catch (e) { try { throw e; } catch (f) { print(e + f); } } }
0 accepted|interface D { } main { batch (D r) { val a = 1; } batch (D r) { val a = "a"; } val r = 1; }
4 types 1 UnknownName at 1:46|interface D { } main { batch (D r) { } print(r); }
0 accepted|class C { fun f(a: Int) { val b = a; } fun g() { val a = "a"; val b = a; } } main { val a = 1; }
4 types 1 UnknownName at 1:56|class C { fun f(a: Int) { val b = a; } fun g() { print(a); } } main { }
4 types 1 UnknownName at 1:44|class C { fun f(a: Int) { } } main { print(a); }
4 types 1 UnknownName at 1:16|main { val a = a; }
4 types 1 UnknownName at 1:45|main: Int { if (true) { val a = 1; } return a; }
0 accepted|main: Int { val a = 1; return a; }
4 types 2 NameTaken at 1:25|class C { fun f(a: Int, a: E) { } } main { }
4 types 1 UnknownName at 1:20|class C { fun f(a: E, a: Int) { } } main { }
4 types 1 UnknownName at 1:19|class C { v: Rows<E>; } main { }
4 types 7 TypeNotHere at 1:14|class C { v: Rows<Unit>; } main { }
4 types 1 UnknownName at 1:17|main { val a = (x + 1) + true; }
4 types 1 UnknownName at 1:16|main { val a = x + (1 + true); }
4 types 3 WrongType at 1:21|main { val a = (1 + true) + x; }
4 types 3 WrongType at 1:16|main { val a = true + "a"; }
4 types 1 UnknownName at 1:42|class B { v: Int; } main { val b = new B(x, 1); }
4 types 4 WrongCount at 1:36|class B { v: Int; } main { val b = new B(true, true); }
4 types 1 UnknownName at 1:28|class C { fun f() { this.g(x); } } main { }
4 types 1 UnknownName at 1:24|main { val a = List<E>(x); }
4 types 1 UnknownName at 1:21|main { val a = List<E>(1, true); }
4 types 1 UnknownName at 1:8|main { x = y; }
4 types 1 UnknownName at 1:23|main { val a = 1; a = x; }
4 types 5 NotAssignable at 1:21|main { val a = 1; a = true; }
4 types 1 UnknownName at 1:27|main { val a = 1; val a = x; }
4 types 2 NameTaken at 1:58|interface D { fun n(); } main { val a = 1; batch (D r) { val a = r.n(); } }
4 types 2 NameTaken at 1:19|main { val x = 1; for (x in x) { } }
4 types 2 NameTaken at 1:19|main { val r = 1; batch (D r) { } }
4 types 1 UnknownName at 1:21|class C { fun f() { batch (D r) { } } } main { }
4 types 4 WrongCount at 1:45|class C { remote fun f() { } fun g() { this.f(1); } } main { }
4 types 1 UnknownName at 1:14|main { print(x); print(1 + true); }
4 types 3 WrongType at 1:18|main { print(1 + true); print(x); }
4 types 3 WrongType at 1:12|main { if (1) { print(x); } }
4 types 1 UnknownName at 1:26|main { if (true) { print(x); } else { y = 1; } }
4 types 1 UnknownName at 1:15|main { while (x) { y = 1; } }
4 types 2 NameTaken at 1:19|main { val a = 1; for (a in List<Int>()) { print(x); } }
4 types 1 UnknownName at 1:18|main { for (x in y) { z.f(); } }
4 types 1 UnknownName at 1:31|main { val e = 1; try { print(x); } catch (e) { } }
4 types 2 NameTaken at 1:19|main { val e = 1; try { } catch (e) { print(x); } }
4 types 1 UnknownName at 1:8|main { batch (D r) { print(x); } }
4 types 1 UnknownName at 1:24|interface D { fun n(): E; } class D { } main { }
4 types 2 NameTaken at 1:23|interface D { } class D { v: E; } main { }
4 types 2 NameTaken at 1:27|interface D { } interface D { fun n(): E; } class C { v: F; } main { }
4 types 1 UnknownName at 1:14|class C { v: E; } class C { } main { }
4 types 1 UnknownName at 1:42|class C { fun f() { print(x); } fun g(): E { } } main { }
4 types 2 NameTaken at 1:32|class C { fun f(): Int { } fun f() { } } main { }
4 types 1 UnknownName at 1:48|class C { fun f() { print(x); } } class B { v: E; } main { }
4 types 1 UnknownName at 1:27|class C { fun f() { print(x); } } main: E { }
4 types 6 MissingReturn at 1:15|class C { fun f(): Int { } fun g() { print(x); } } main { }
4 types 1 UnknownName at 1:7|main: E { print(x); }
4 types 7 TypeNotHere at 1:7|main: Unit { print(x); }
4 types 1 UnknownName at 1:19|main: Int { print(x); }
4 types 1 UnknownName at 1:19|main: Int { print(x); return true; }"#;
