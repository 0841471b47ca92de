// What programs without a batch print, and how they end.

/// Numbers, texts, the value of `main`, the order of evaluation, objects, names, `try` and lists.
pub static ROWS: &str =
    r#"main { val m = -9223372036854775808; print(m / -1); print(m % -1); print(m - 1); }
----
0 -9223372036854775808
0
9223372036854775807
done
exchanges 0
object 0: D { }
====
main { var t = "x"; var i = 0; while (i < 12) { t = t + t; i = i + 1; } print(len(t)); t = t + "y"; }
----
1 4096
fault 3 TextTooLong at 1:94
exchanges 0
object 0: D { }
====
class A { fun f(n: Int): Int { var r = 0; if (n > 0) { r = this.f(n - 1); } return r; } } main { print(new A().f(31)); print(new A().f(32)); }
----
1 0
fault 6 TooDeep at 1:65
exchanges 0
object 0: D { }
====
main: Int { return 3 * -5; }
----
0 done -15
exchanges 0
object 0: D { }
====
main: Bool { return !(1 == 2) && "a" != "b"; }
----
0 done true
exchanges 0
object 0: D { }
====
main: Text { return "a\n\"b\\"; }
----
0 done "a\n\"b\\"
exchanges 0
object 0: D { }
====
main { print(1 < 2); print(2 <= 2); print(1 > 2); print(2 >= 3); print(true == false); print(-7 / 2); print(-7 % 2); print(7 % -2); print(9223372036854775807 + 1); print(len("abc")); print(str(-4) + str(true)); }
----
0 true
true
false
false
false
-3
-1
1
-9223372036854775808
3
-4true
done
exchanges 0
object 0: D { }
====
class P { v: Int; fun s(t: Text): Int { print(t); return this.v; } } main { val p = new P(2); print(p.s("left") - p.s("right")); print(List<Int>(p.s("a"), p.s("b"))[p.s("index") - 1]); }
----
0 left
right
0
a
b
index
2
done
exchanges 0
object 0: D { }
====
class P { v: Int; fun me(t: Text): P { print(t); return this; } fun of(a: Int, b: Int): Int { return a - b; } fun n(t: Text, n: Int): Int { print(t); return n; } } main { val p = new P(0); print(p.me("receiver").of(p.n("first", 5), p.n("second", 3))); }
----
0 receiver
first
second
2
done
exchanges 0
object 0: D { }
====
class P { v: Int; fun yes(t: Text): Bool { print(t); return true; } fun no(t: Text): Bool { print(t); return false; } } main { val p = new P(0); print(p.no("a") && p.yes("b")); print(p.yes("c") || p.no("d")); print(p.yes("e") && p.no("f")); print(p.no("g") || p.yes("h")); }
----
0 a
false
c
true
e
f
false
g
h
true
done
exchanges 0
object 0: D { }
====
class P { v: Int; } main { val a = new P(1); val b = a; b.v = 5; print(a.v); a.v = a.v + b.v; print(b.v); }
----
0 5
10
done
exchanges 0
object 0: D { }
====
class P { v: Int; fun set(n: Int): Int { this.v = n; return n; } } main { val p = new P(1); p.v = p.set(7) + p.v; print(p.v); }
----
0 14
done
exchanges 0
object 0: D { }
====
class A { fun even(n: Int): Bool { var r = true; if (n > 0) { r = new B().odd(n - 1); } return r; } } class B { fun odd(n: Int): Bool { var r = false; if (n > 0) { r = new A().even(n - 1); } return r; } } main { print(new A().even(10)); print(new A().even(7)); }
----
0 true
false
done
exchanges 0
object 0: D { }
====
class C { l: List<Int>; fun add(n: Int) { this.l = this.l + List<Int>(n); } } main { val c = new C(List<Int>()); c.add(3); c.add(4); print(len(c.l)); print(c.l[1]); }
----
0 2
4
done
exchanges 0
object 0: D { }
====
class C { n: Int; fun twice(): Int { this.n = this.n * 2; return this.n; } } main { val c = new C(1); c.twice(); c.twice(); print(c.twice()); }
----
0 8
done
exchanges 0
object 0: D { }
====
main { val x = 1; if (true) { val y = 2; print(y); } val y = 3; print(y); for (x2 in List<Int>(4, 5)) { val z = x2; print(z); } val z = 6; print(z); }
----
0 2
3
4
5
6
done
exchanges 0
object 0: D { }
====
main { var n = 0; try { n = 1; throw "no"; } catch (e) { print(e); print(n); } print(n); }
----
0 no
1
1
done
exchanges 0
object 0: D { }
====
main { try { try { throw "in"; } catch (e) { print(e); throw "out"; } } catch (f) { print(f); } }
----
0 in
out
done
exchanges 0
object 0: D { }
====
main { val m = List<List<Int>>(List<Int>(1, 2), List<Int>(), List<Int>(3)); print(len(m)); for (l in m) { for (i in l) { print(i); } } print((m[0] + m[2])[2]); }
----
0 3
1
2
3
3
done
exchanges 0
object 0: D { }
====
main { for (t in List<Text>("a", "b") + List<Text>("c")) { print(t); } }
----
0 a
b
c
done
exchanges 0
object 0: D { }
====
main { }
----
0 done
exchanges 0
object 0: D { }
====
interface D { fun n(): Int; } main { print(1); }
----
0 1
done
exchanges 0
object 0: D { }"#;
