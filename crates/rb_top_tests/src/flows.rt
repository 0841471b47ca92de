// Which flows are named, and by which chains.

/// What `check` answers on texts behind the interfaces; and batches with as many inputs as they may have, and with more.
pub static ROWS: &str =
    r#"main { batch (Dir r) { var s = r.file(0).size(); s = s + 1; r.file(1).grow(s); } }
----
5 refused 1 Flow 3:42 3:24 3:76
====
main { batch (Dir r) { val s = r.file(0).size(); r.file(1).grow(s + 1); } }
----
0 accepted
====
class Box { v: Int; fun set(n: Int) { this.v = n; } fun get(): Int { return this.v; } }
main { val o = new Box(0); batch (Dir r) { o.set(r.file(0).size()); r.file(1).grow(o.get()); } }
----
5 refused 1 Flow 4:60 4:46 4:86
====
main { batch (Dir r) { var a = r.file(0).size(); var b = r.file(1).size(); var c = a + b; r.file(0).grow(c); } }
----
5 refused 1 Flow 3:42 3:24 3:76 3:106
====
main { batch (Dir r) { var i = r.file(0).size(); val f = r.file(i); f.grow(1); } }
----
5 refused 1 Flow 3:42 3:24 3:65
====
main { batch (Dir r) { val s = r.file(0).size(); val t = len(str(s)) + 1; var u = t; r.file(u).grow(1); } }
----
5 refused 1 Flow 3:42 3:24 3:50 3:75 3:93
====
main { batch (Dir r) { val x = len("a"); var s = r.file(0).size() + x; r.burn(s); } }
----
5 refused 1 Flow 3:60 3:42 3:79
====
main { batch (Dir r) { if (true) { var t = r.file(0).size(); val u = t * 2; r.burn(u); } } }
----
5 refused 1 Flow 3:54 3:36 3:62 3:84
====
main { batch (Dir r) { var s = 0; s = r.file(0).size(); r.burn(s); } }
----
5 refused 1 Flow 3:49 3:37 3:64
====
class Box { v: Int; fun set(n: Int) { this.v = n; } fun get(): Int { return this.v; } }
main { val o = new Box(0); batch (Dir r) { o.v = r.file(0).size(); r.burn(o.v); } }
----
5 refused 1 Flow 4:60 4:48 4:77
====
class Box { v: Int; fun set(n: Int) { this.v = n; } fun get(): Int { return this.v; } }
main { val o = new Box(0); batch (Dir r) { o.set(r.file(0).size()); r.burn(o.v); } }
----
5 refused 1 Flow 4:60 4:46 4:78
====
class Box { v: Int; fun set(n: Int) { this.v = n; } fun get(): Int { return this.v; } }
main { batch (Dir r) { val o = new Box(r.file(0).size()); r.burn(o.v); } }
----
5 refused 1 Flow 4:50 4:24 4:68
====
main { var k = 0; batch (Dir r) { val s = r.file(0).size(); for (x in List<Int>(s)) { k = x; } r.burn(k); } }
----
5 refused 1 Flow 3:53 3:35 3:89 3:103
====
main { batch (Dir r) { val s = r.file(0).size(); var k = 0; for (x in List<Int>(1)) { k = s; } r.burn(k); } }
----
5 refused 1 Flow 3:42 3:24 3:89 3:103
====
main { batch (Dir r) { var k = 0; for (f in r.files()) { k = 1; } r.burn(k); } }
----
5 refused 1 Flow 3:47 3:60 3:74
====
main { batch (Dir r) { val s = r.file(0).size(); var k = ""; try { throw str(s); } catch (e) { k = e; } r.file(0).rename(k); } }
----
5 refused 1 Flow 3:42 3:24 3:98 3:122
====
class Box { v: Int; fun set(n: Int) { this.v = n; } fun get(): Int { return this.v; } }
main { val a = new Box(0); val c = new Box(1); batch (Dir r) { a.v = r.file(0).size(); r.burn(c.v); } }
----
5 refused 1 Flow 4:80 4:68 4:97
====
class Box { v: Int; fun set(n: Int) { this.v = n; } fun get(): Int { return this.v; } }
main { val a = new Box(0); val c = new Box(1); batch (Dir r) { a.v = r.file(0).size(); r.burn(c.get()); } }
----
5 refused 1 Flow 4:80 4:68 4:97
====
class Box { v: Int; fun set(n: Int) { this.v = n; } fun get(): Int { return this.v; } }
main { val a = new Box(0); val c = new Box(1); batch (Dir r) { val s = r.file(0).size(); a.set(s); val t = c.get(); r.burn(t); } }
----
5 refused 1 Flow 4:82 4:64 4:92 4:100 4:124
====
class Box { v: Int; fun set(n: Int) { this.v = n; } fun get(): Int { return this.v; } }
main { val a = new Box(0); batch (Dir r) { r.burn(a.v); } }
----
5 refused 2 NotConstant 4:53
====
class Box { v: Int; fun set(n: Int) { this.v = n; } fun get(): Int { return this.v; } }
main { batch (Dir r) { val z = new Box(1); r.burn(z.v); } }
----
5 refused 2 NotConstant 4:53
====
main { batch (Dir r) { var k = 0; if (r.file(0).size() > 1) { k = 1; } r.burn(k); } }
----
5 refused 1 Flow 3:49 3:65 3:79
====
main { batch (Dir r) { val s = r.file(0).size(); var k = 0; if (s > 1) { } else { k = 1; } r.burn(k); } }
----
5 refused 1 Flow 3:42 3:24 3:85 3:99
====
main { batch (Dir r) { var k = 0; while (k < r.file(0).size()) { k = k + 1; } r.burn(k); } }
----
5 refused 3 UnderLocalCondition 3:44 3:48
====
main { batch (Dir r) { val s = r.file(0).size(); var k = 0; while (k < s) { k = k + 1; } r.burn(k); } }
----
5 refused 1 Flow 3:42 3:24 3:79 3:97
====
main { batch (Dir r) { val s = r.file(0).size(); var k = 0; try { if (s > 3) { throw "x"; } k = 1; } catch (e) { } r.burn(k); } }
----
5 refused 1 Flow 3:42 3:24 3:95 3:123
====
main { batch (Dir r) { val s = r.file(0).size(); var k = 0; try { k = 1; } catch (e) { print(s); } r.burn(k); } }
----
5 refused 1 Flow 3:42 3:24 3:69 3:107
====
main { batch (Dir r) { var a = r.file(0).size(); var b = r.file(1).size(); r.burn(a + b); } }
----
5 refused 1 Flow 3:42 3:24 3:83
====
main { batch (Dir r) { var b = r.file(1).size(); var a = r.file(0).size(); r.burn(a + b); } }
----
5 refused 1 Flow 3:68 3:50 3:83
====
main { batch (Dir r) { var a = r.file(0).size() + r.file(1).size(); r.burn(a); } }
----
5 refused 1 Flow 3:42 3:24 3:76
====
main { batch (Dir r) { var a = r.file(r.file(2).size()).size(); r.burn(a); } }
----
5 refused 1 Flow 3:57 3:24 3:72
====
main { batch (Dir r) { var a = r.file(0).size(); var b = a; var c = a; r.burn(b + c); } }
----
5 refused 1 Flow 3:42 3:24 3:50 3:79
====
main { batch (Dir r) { var a = r.file(0).size(); var b = r.file(1).size(); var c = b; var d = a; r.burn(c + d); } }
----
5 refused 1 Flow 3:68 3:50 3:76 3:105
====
main { batch (Dir r) { var a = r.file(0).size(); var b = a; var c = b; r.burn(c + r.file(5).size()); } }
----
5 refused 1 Flow 3:42 3:24 3:50 3:61 3:79
====
main { batch (Dir r) { var n = 0; r.burn(n + r.file(0).size()); } }
----
5 refused 2 NotConstant 3:42
====
main { batch (Dir r) { var n = 0; r.burn(r.file(0).size() + n); } }
----
5 refused 2 NotConstant 3:61
====
main { batch (Dir r) { r.burn(List<Int>(r.file(0).size())[0]); } }
----
5 refused 1 Flow 3:51 3:58
====
main { batch (Dir r) { r.burn(len(r.file(0).name())); } }
----
0 accepted
====
class Box { v: Int; fun set(n: Int) { this.v = n; } fun get(): Int { return this.v; } }
main { batch (Dir r) { r.burn(new Box(r.file(0).size()).v); } }
----
5 refused 1 Flow 4:49 4:57
====
main { batch (Dir r) { for (a in r.files()) { for (f in r.files()) { var s = a.size(); f.grow(s); } } } }
----
5 refused 1 Flow 3:36 3:70 3:95
====
main { batch (Dir r) { var s = 0; for (a in r.files()) { r.burn(s); s = a.size(); } } }
----
5 refused 1 Flow 3:47 3:71 3:65
====
main { batch (Dir r) { var s = 0; for (a in r.files()) { if (a.size() > 1) { s = s + 1; a.grow(s); } } } }
----
5 refused 1 Flow 3:47 3:80 3:96
====
main { batch (Dir r) { for (a in r.files()) { if (a.size() > 1) { var t = 0; for (f in r.files()) { if (f.size() > a.size()) { t = t + f.size(); } } a.grow(t); } } } }
----
5 refused 1 Flow 3:36 3:67 3:157
====
main { batch (Dir r) { var s = r.file(0).size(); s = s + 1; print(s); r.file(1).grow(2); } }
----
0 accepted
====
main { batch (Dir r) { val s = r.file(0).size(); val t = s + 1; r.file(t).grow(s * 2); } }
----
0 accepted
====
main { val n = 3; batch (Dir r) { r.file(r.file(0).size()).grow(r.file(1).size() + n); } }
----
0 accepted
====
main { val n = 100; batch (Dir r) { for (f in r.files()) { val s = f.size(); if (s > n) { f.grow(s - n); } } } }
----
0 accepted
====
main { var t = "a"; t = "b"; batch (Dir r) { for (f in r.files()) { if (f.size() > 1 && f.name() != t) { f.rename("x" + t); } } } }
----
0 accepted
====
main { batch (Dir r) { for (a in r.files()) { for (f in r.files()) { f.grow(a.size()); } } } }
----
0 accepted
====
main { batch (Dir r) { var sum = 0; for (f in r.files()) { sum = sum + f.size(); } print(sum); r.burn(1); } }
----
0 accepted
====
class Box { v: Int; fun set(n: Int) { this.v = n; } fun get(): Int { return this.v; } }
main { val o = new Box(0); batch (Dir r) { o.set(r.file(0).size()); print(o.get()); r.burn(1); } }
----
0 accepted
====
main { var k = 0; batch (Dir r) { k = r.file(0).size(); } batch (Dir r) { r.burn(k); } }
----
0 accepted
====
main { batch (Dir r) { val s = r.file(0).size(); try { print(1 / s); } catch (e) { print(e); } r.burn(s); } }
----
0 accepted
====
main { batch (Dir r) { if (r.file(0).size() > 1) { r.burn(1); } else { r.burn(2); } } }
----
0 accepted
====
main { batch (Dir r) { val f = r.file(0); f.grow(f.size()); print(f.name()); } }
----
0 accepted
====
main { batch (Dir r) { } }
----
0 accepted
====
main { ~val c# = #; ~255~
batch (Dir r) { ~r.burn(c#); ~255~} }
----
0 accepted
====
main { ~val c# = #; ~256~
batch (Dir r) { ~r.burn(c#); ~256~} }
----
5 refused 8 TooManyInputs 4:1 256
====
main { batch (Dir q) { q.burn(1); } ~val c# = #; ~257~
batch (Dir r) { ~r.burn(c#); ~257~} }
----
5 refused 8 TooManyInputs 4:1 257"#;
