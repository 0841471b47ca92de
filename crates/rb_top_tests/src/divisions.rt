// How the batches of a program are divided: what `split p` shows.

/// Batches behind the interfaces, and loops over constant lists among them.
pub static ROWS: &str = r#"main { batch (Dir r) { } }
----
0 batch 3:8
inputs
script
remainder
====
main { batch (Dir r) { val s = r.file(0).size(); r.file(1).grow(s + 1); } }
----
0 batch 3:8
inputs
script
  0 let v0 keep = root.file(0).size()
  1 do root.file(1).grow(add(v0, 1))
remainder
  val s = <0>;
  pass <1>;
====
main { val a = 1; val b = 0; batch (Dir r) { r.file(0).grow(1); val k = a / b; r.file(1).grow(k); } }
----
0 batch 3:30
inputs a b
script
  0 do root.file(0).grow(1)
  1 let v0 = div(in0, in1)
  2 do root.file(1).grow(v0)
remainder
  pass <0>;
  val k = a / b; // <1>
  pass <2>;
====
main { batch (Dir r) { val f = r.file(0); val g = f; g.grow(1); val n = 7; f.grow(n); } }
----
0 batch 3:8
inputs
script
  0 let v0 = root.file(0)
  1 let v1 = v0
  2 do v1.grow(1)
  3 let v2 = 7
  4 do v0.grow(v2)
remainder
  pass <0>;
  pass <1>;
  pass <2>;
  val n = 7; // <3>
  pass <4>;
====
main { val unused = 3; val n = 1; val t = "x"; batch (Dir r) { r.file(n).rename(t + "y"); r.file(n).grow(n); } }
----
0 batch 3:48
inputs n t
script
  0 do root.file(in0).rename(add(in1, "y"))
  1 do root.file(in0).grow(in0)
remainder
  pass <0>;
  pass <1>;
====
main { batch (Dir r) { for (a in r.files()) { for (b in r.files()) { var n = 0; for (c in r.files()) { n = n + a.size() + b.size() + c.size(); } print(n); } } } }
----
0 batch 3:8
inputs
script
  0 each v0 in root.files()
    1 each v1 in root.files()
      2 each v2 in root.files()
        3 keep v0.size()
        4 keep v1.size()
        5 keep v2.size()
remainder
  for a in <0> {
    for b in <1> {
      var n = 0;
      for c in <2> {
        n = n + <3> + <4> + <5>;
      }
      print(n);
    }
  }
====
main { batch (Dir r) { for (f in r.files()) { if (f.size() > 100) { print(f.name()); f.grow(5); } else { f.grow(1); print("small"); } } } }
----
0 batch 3:8
inputs
script
  0 each v0 in root.files()
    1 if gt(v0.size(), 100)
      2 keep v0.name()
      3 do v0.grow(5)
    else
      4 do v0.grow(1)
remainder
  for f in <0> {
    if <1> {
      print(<2>);
      pass <3>;
    } else {
      pass <4>;
      print("small");
    }
  }
====
main { batch (Dir r) { if (r.file(0).size() > 1) { } else { r.burn(2); } if (r.file(0).size() > 1) { print("big"); } } }
----
0 batch 3:8
inputs
script
  0 if gt(root.file(0).size(), 1)
  else
    1 do root.burn(2)
  2 keep gt(root.file(0).size(), 1)
remainder
  if <0> {
  } else {
    pass <1>;
  }
  if (<2>) {
    print("big");
  }
====
main { val k = 4; val by = List<Int>(0, 1); val to = List<Text>("x"); batch (Dir r) { for (n in by) { val f = r.file(n); for (t in to) { f.rename(t + str(k)); for (m in by) { print(m); } } if (f.size() > n) { print(n); f.grow(k); } } } }
----
0 batch 3:71
inputs by to k
script
  0 over v0 in in0
    1 let v1 = root.file(v0)
    2 over v2 in in1
      3 do v1.rename(add(v2, str(in2)))
    4 if gt(v1.size(), v0)
      5 do v1.grow(in2)
remainder
  for n in by <0> {
    pass <1>;
    for t in to <2> {
      pass <3>;
      for (m in by) {
        print(m);
      }
    }
    if <4> {
      print(n);
      pass <5>;
    }
  }
====
main { val by = List<Int>(0, 1); batch (Dir r) { for (f in r.files()) { for (n in by) { print(f.size() + n); } } for (n in by) { val m = n * 2; r.file(0).grow(m); } } }
----
0 batch 3:34
inputs by
script
  0 each v0 in root.files()
    1 over v1 in in0
      2 keep add(v0.size(), v1)
  3 over v2 in in0
    4 let v3 = mul(v2, 2)
    5 do root.file(0).grow(v3)
remainder
  for f in <0> {
    for n in by <1> {
      print(<2>);
    }
  }
  for n in by <3> {
    val m = n * 2; // <4>
    pass <5>;
  }"#;

/// Batches behind the interfaces with results of each kind.
pub static WIDE: &str =
    r#"main { batch (Dir r) { for (n in r.file(0).sizes()) { print(n); } for (t in r.file(0).tags()) { print(t); } for (b in r.file(0).flags()) { if (b) { r.file(0).set(1, b, "q"); } } } }
----
0 batch 3:8
inputs
script
  0 each v0 keep in root.file(0).sizes()
  1 each v1 keep in root.file(0).tags()
  2 each v2 keep in root.file(0).flags()
    3 if v2
      4 do root.file(0).set(1, v2, "q")
remainder
  for n in <0> {
    print(n);
  }
  for t in <1> {
    print(t);
  }
  for b in <2> {
    if <3> {
      pass <4>;
    }
  }
====
main { val n = 2; val b = true; val t = "a\n\"\\"; batch (Dir r) { print(!r.file(0).ok()); print(-r.file(n).size()); print(len(r.file(0).name())); print(str(r.file(0).size())); r.file(1 + 2 - 3 * 4).set(5 / n % 6, n == 1 && t != "u" || b, t); print(r.file(0).size() < 1 == (r.file(0).size() <= 2)); print(r.file(0).size() > 1 == (r.file(0).size() >= 2)); r.file(-9223372036854775808).set(-1, false, ""); } }
----
0 batch 3:52
inputs n t b
script
  0 keep not(root.file(0).ok())
  1 keep neg(root.file(in0).size())
  2 keep len(root.file(0).name())
  3 keep str(root.file(0).size())
  4 do root.file(sub(add(1, 2), mul(3, 4))).set(rem(div(5, in0), 6), or(and(eq(in0, 1), ne(in1, "u")), in2), in1)
  5 keep eq(lt(root.file(0).size(), 1), le(root.file(0).size(), 2))
  6 keep eq(gt(root.file(0).size(), 1), ge(root.file(0).size(), 2))
  7 do root.file(neg(-9223372036854775808)).set(neg(1), false, "")
remainder
  print(<0>);
  print(<1>);
  print(<2>);
  print(<3>);
  pass <4>;
  print(<5>);
  print(<6>);
  pass <7>;
====
main { batch (Dir r) { print(List<Int>(r.file(0).size(), 2, r.file(1).size())[r.file(2).size()]); var s = 0; s = s + r.file(0).size() * 2; throw r.file(0).name() + "!"; } }
----
0 batch 3:8
inputs
script
  0 keep root.file(0).size()
  1 keep root.file(1).size()
  2 keep root.file(2).size()
  3 keep mul(root.file(0).size(), 2)
  4 keep add(root.file(0).name(), "!")
remainder
  print(List<Int>(<0>, 2, <1>)[<2>]);
  var s = 0;
  s = s + <3>;
  throw <4>;
====
class Box { v: Int; fun add(n: Int): Int { return this.v + n; } } main { val o = new Box(1); batch (Dir r) { print(o.add(r.file(0).size())); o.v = r.file(0).size() + o.v; print(new Box(r.file(0).size()).v); } }
----
0 batch 3:94
inputs
script
  0 keep root.file(0).size()
  1 keep root.file(0).size()
  2 keep root.file(0).size()
remainder
  print(o.add(<0>));
  o.v = <1> + o.v;
  print(new Box(<2>).v);
====
main { batch (Dir r) { var n = r.file(0).size(); while (n > 0) { n = n - 1; } for (x in List<Int>(r.file(0).size())) { print(x); } try { print(1 / n); } catch (e) { print(e); } val q = n + 1; print(q); } }
----
0 batch 3:8
inputs
script
  0 keep root.file(0).size()
  1 keep root.file(0).size()
remainder
  var n = <0>;
  while (n > 0) {
    n = n - 1;
  }
  for (x in List<Int>(<1>)) {
    print(x);
  }
  try {
    print(1 / n);
  } catch (e) {
    print(e);
  }
  val q = n + 1;
  print(q);
====
main { batch (Dir r) { r.best(r.file(0)).set(r.file(1).size(), true, r.file(2).name()); r.file(0).next().next(); print(r.best(r.file(0).next()).name()); } }
----
0 batch 3:8
inputs
script
  0 do root.best(root.file(0)).set(root.file(1).size(), true, root.file(2).name())
  1 do root.file(0).next().next()
  2 keep root.best(root.file(0).next()).name()
remainder
  pass <0>;
  pass <1>;
  print(<2>);
====
main { val n = 1; batch (Dir r) { print(r.file(n).size()); } if (true) { batch (Dir q) { val m = n * 2; print(q.file(m).size()); } } }
----
0 batch 3:19
inputs n
script
  0 keep root.file(in0).size()
remainder
  print(<0>);
batch 3:74
inputs n
script
  0 let v0 = mul(in0, 2)
  1 keep root.file(v0).size()
remainder
  val m = n * 2; // <0>
  print(<1>);
====
class Job { n: Int; remote fun go(k: Int) { batch (Dir d) { print(d.file(k).size() + this.n); } } } main { new Job(1).go(2); }
----
0 batch 3:45
inputs k
script
  0 keep root.file(in0).size()
remainder
  print(<0> + this.n);
====
main { print(1); }
----
0 (no line feed)"#;
