// The faults of programs without a batch, and their fuel.

/// Faults at their nodes, want of fuel, faults that are caught by name, and what a fault leaves.
pub static ROWS: &str = r#"main { val a = 0; print(1 / a); }
----
1 fault 1 DivZero at 1:27
exchanges 0
object 0: D { }
====
main { val a = 0; print(1 % a); }
----
1 fault 1 DivZero at 1:27
exchanges 0
object 0: D { }
====
main { val l = List<Int>(1, 2); print(l[2]); }
----
1 fault 2 Index at 1:40
exchanges 0
object 0: D { }
====
main { val l = List<Int>(1, 2); print(l[0 - 1]); }
----
1 fault 2 Index at 1:40
exchanges 0
object 0: D { }
====
main { var l = List<Int>(1, 2, 3, 4, 5); var i = 0; while (i < 11) { l = l + l; i = i + 1; } }
----
1 fault 4 ListTooLong at 1:76
exchanges 0
object 0: D { }
====
class C { n: Int; } main { var i = 0; while (true) { val c = new C(i); i = i + 1; } }
----
1 fault 5 HeapFull at 1:62
exchanges 0
object 0: D { }
====
main { throw "a \"quoted\"\nword"; }
----
1 fault 8 Thrown "a \"quoted\"\nword" at 1:8
exchanges 0
object 0: D { }
====
class A { fun f(): Int { return this.f(); } } main { print(new A().f()); }
----
1 fault 6 TooDeep at 1:38
exchanges 0
object 0: D { }
====
main { var i = 0; while (true) { i = i + 1; } }
----
1 fault 7 FuelUsed at 1:19
exchanges 0
object 0: D { }
----
both p s 3
====
main { var i = 0; while (true) { i = i + 1; } }
----
1 fault 7 FuelUsed at 1:19
exchanges 0
object 0: D { }
----
both p s 0
====
main { try { while (true) { } } catch (e) { print(e); } }
----
1 fault 7 FuelUsed at 1:14
exchanges 0
object 0: D { }
----
both p s 3
====
class A { fun f(): Int { return 1; } } main { print(new A().f()); print(new A().f()); }
----
1 1
fault 7 FuelUsed at 1:81
exchanges 0
object 0: D { }
----
both p s 1
====
class A { fun f(): Int { return 1; } } main { print(new A().f()); print(new A().f()); }
----
0 1
1
done
exchanges 0
object 0: D { }
----
both p s 2
====
class A { fun f(): Int { return 1; } } main { print(new A().f()); print(new A().f()); }
----
0 1
1
done
exchanges 0
object 0: D { }
----
both p s 3
====
main { for (x in List<Int>(4, 5)) { print(x); } }
----
1 4
fault 7 FuelUsed at 1:8
exchanges 0
object 0: D { }
----
both p s 1
====
main { for (x in List<Int>(4, 5)) { print(x); } }
----
0 4
5
done
exchanges 0
object 0: D { }
----
both p s 2
====
main { for (x in List<Int>(4, 5)) { print(x); } }
----
0 4
5
done
exchanges 0
object 0: D { }
----
both p s 3
====
main { var i = 0; while (i < 2) { i = i + 1; print(i); } }
----
1 1
fault 7 FuelUsed at 1:19
exchanges 0
object 0: D { }
----
both p s 1
====
main { var i = 0; while (i < 2) { i = i + 1; print(i); } }
----
0 1
2
done
exchanges 0
object 0: D { }
----
both p s 2
====
main { var i = 0; while (i < 2) { i = i + 1; print(i); } }
----
0 1
2
done
exchanges 0
object 0: D { }
----
both p s 3
====
main { print(1); }
----
0 1
done
exchanges 0
object 0: D { }
----
both p s 1000000000
====
main { try { print(1 / 0); } catch (e) { print(e); } }
----
0 DivZero
done
exchanges 0
object 0: D { }
====
main { try { print(List<Int>()[0]); } catch (e) { print(e); } }
----
0 Index
done
exchanges 0
object 0: D { }
====
main { var t = "x"; try { while (true) { t = t + t; } } catch (e) { print(e); print(len(t)); } }
----
0 TextTooLong
4096
done
exchanges 0
object 0: D { }
====
main { var l = List<Int>(1, 2, 3, 4, 5); try { while (true) { l = l + l; } } catch (e) { print(e); print(len(l)); } }
----
0 ListTooLong
5120
done
exchanges 0
object 0: D { }
====
class C { n: Int; } main { var i = 0; try { while (true) { val c = new C(i); i = i + 1; } } catch (e) { print(e); print(i); } }
----
0 HeapFull
100000
done
exchanges 0
object 0: D { }
====
class A { fun f(): Int { return this.f(); } } main { try { print(new A().f()); } catch (e) { print(e); } }
----
0 TooDeep
done
exchanges 0
object 0: D { }
====
class P { v: Int; fun s(t: Text): Int { print(t); return 0; } } main { val p = new P(0); print(1 / p.s("a") + p.s("b")); }
----
1 a
fault 1 DivZero at 1:98
exchanges 0
object 0: D { }
====
class P { v: Int; fun s(t: Text, n: Int): Int { print(t); return n; } } main { val p = new P(0); print(p.s("never", 1 / p.v)); }
----
1 fault 1 DivZero at 1:119
exchanges 0
object 0: D { }
====
class P { v: Int; fun s(n: Int): Int { this.v = n; return 1 / (n - n); } } main { val p = new P(0); val x = 4; try { print(p.s(x)); } catch (e) { print(e); } print(p.v); print(x); }
----
0 DivZero
4
4
done
exchanges 0
object 0: D { }
====
class P { v: Int; fun s() { this.v = this.v + 1; throw "after"; } } main { val p = new P(0); try { p.s(); } catch (e) { print(e); } print(p.v); }
----
0 after
1
done
exchanges 0
object 0: D { }
====
class A { fun f(n: Int): Int { var r = 0; if (n > 0) { r = this.f(n - 1); } return r; } } main { try { print(new A().f(40)); } catch (e) { print(e); } print(new A().f(31)); }
----
0 TooDeep
0
done
exchanges 0
object 0: D { }"#;
