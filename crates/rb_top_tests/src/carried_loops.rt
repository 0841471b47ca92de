// Loops over constant lists.

/// Loops that go along, in loops and branches and beside them, turns that fault, lists with as many items as may go along
/// and with more, and want of fuel.
pub static ROWS: &str =
    r#"main { val by = List<Int>(1, 2, 3); batch (Dir r) { for (n in by) { r.file(0).grow(n); print(n); } } }
----
0 1
2
3
done
exchanges 1
sizes 16 200
====
main { val by = List<Int>(); batch (Dir r) { for (n in by) { r.file(0).grow(n); } print(1); } }
----
0 1
done
exchanges 1
sizes 10 200
====
main { val by = List<Int>(0, 1, 0); batch (Dir r) { for (i in by) { print(r.file(i).name()); val s = r.file(i).size(); r.file(1 - i).grow(s); } } }
----
0 a
bb
a
done
exchanges 1
sizes 220 430
====
main { val names = List<Text>("x", "yy"); batch (Dir r) { for (name in names) { r.file(0).rename(name + "!"); print(r.file(0).name()); r.file(0).rename("a"); } } }
----
0 x!
yy!
done
exchanges 1
sizes 10 200
====
main { val which = List<Bool>(true, false); batch (Dir r) { for (up in which) { if (up) { r.file(0).grow(5); print("up"); } else { r.file(1).grow(7); print("down"); } } } }
----
0 up
down
done
exchanges 1
sizes 15 207
====
main { var by = List<Int>(1); by = by + List<Int>(2); batch (Dir r) { for (n in by) { r.file(0).grow(n); } } by = List<Int>(10); batch (Dir r) { for (n in by) { r.file(0).grow(n); } } }
----
0 done
exchanges 2
sizes 23 200
====
main { val lists = List<List<Int>>(List<Int>(1, 2), List<Int>(), List<Int>(5)); for (by in lists) { batch (Dir r) { for (n in by) { r.file(0).grow(n); print(n); } } } }
----
0 1
2
5
done
exchanges 3
sizes 18 200
====
main { val by = List<Int>(1, 2); batch (Dir r) { for (n in by) { for (f in r.files()) { f.grow(n); print(f.size()); } } } }
----
0 11
201
13
203
done
exchanges 1
sizes 13 203
====
main { val by = List<Int>(1, 2); batch (Dir r) { for (f in r.files()) { for (n in by) { f.grow(n); print(n); } print(f.name()); } } }
----
0 1
2
a
1
2
bb
done
exchanges 1
sizes 13 203
====
main { val by = List<Int>(1, 2); batch (Dir r) { for (n in by) { for (m in by) { r.file(0).grow(n * m); print(n * m); } } } }
----
0 1
2
2
4
done
exchanges 1
sizes 19 200
====
main { val by = List<Int>(1, 2); val to = List<Int>(10, 20); batch (Dir r) { for (n in by) { for (m in to) { r.file(n - 1).grow(m); } } for (m in to) { r.file(0).grow(m); } } }
----
0 done
exchanges 1
sizes 70 230
====
main { val by = List<Int>(1, 2, 3); batch (Dir r) { for (n in by) { if (r.file(0).size() < 12) { r.file(0).grow(n); print(n); } else { for (m in by) { r.file(1).grow(m); } print(0 - n); } } } }
----
0 1
2
-3
done
exchanges 1
sizes 13 206
====
main { val by = List<Int>(1, 2); batch (Dir r) { var sum = 0; for (n in by) { r.file(0).grow(n); for (m in by) { sum = sum + n * m; } } print(sum); } }
----
0 9
done
exchanges 1
sizes 13 200
====
main { val by = List<Int>(1, 2); batch (Dir r) { for (n in by) { print(n); } for (n in by) { r.file(0).grow(n); } } }
----
0 1
2
done
exchanges 1
sizes 13 200
====
main { val by = List<Int>(0, 7, 1); batch (Dir r) { for (n in by) { print(n); r.file(n).grow(1); print(0 - n); } } }
----
1 0
0
7
fault 2 Index at 3:81
exchanges 1
sizes 11 200
====
main { val by = List<Int>(1, 0, 2); batch (Dir r) { for (n in by) { var z = n; r.file(0).grow(1); print(6 / z); } } }
----
1 6
fault 1 DivZero at 3:107
exchanges 1
sizes 13 200
====
main { val by = List<Int>(1, 0, 2); try { batch (Dir r) { for (n in by) { var z = n; r.file(0).grow(1); print(6 / z); } } } catch (e) { print(e); } batch (Dir r) { print(r.file(0).size()); } }
----
0 6
DivZero
13
done
exchanges 2
sizes 13 200
====
main { val by = List<Int>(1, 2); batch (Dir r) { for (n in by) { for (f in r.files()) { print(f.name()); f.check(100); f.grow(n); } } } }
----
1 a
bb
fault 8 Thrown "Big" at 3:108
exchanges 1
sizes 11 200
====
main { val by = List<Int>(1, 0); batch (Dir r) { for (n in by) { val k = 6 / n; r.file(0).grow(k); print(k); } } }
----
1 6
fault 1 DivZero at 3:76
exchanges 1
sizes 16 200
====
main { val by = List<Int>(1, 2); batch (Dir r) { r.burn(999997); for (n in by) { print(n); } for (n in by) { r.file(0).grow(n); print(n); } } }
----
1 1
2
fault 7 FuelUsed at 3:120
exchanges 1
sizes 10 200
====
main { val by = List<Int>(1, 2); batch (Dir r) { r.burn(999998); for (n in by) { print(n); r.file(0).grow(n); } } }
----
1 1
fault 7 FuelUsed at 3:94
exchanges 1
sizes 10 200
====
main { val by = List<Int>(1, 2); try { batch (Dir r) { r.burn(999999); for (n in by) { r.file(0).grow(n); } } } catch (e) { print(e); } }
----
0 FuelUsed
done
exchanges 1
sizes 10 200
====
main { var xs = List<Int>(0); while (len(xs) < 1001) { xs = xs + List<Int>(0); } batch (Dir r) { for (n in xs) { r.file(0).grow(n); } } }
----
1 fault 13 InputTooLarge at 3:82
exchanges 0
sizes 10 200
====
main { var xs = List<Int>(0); while (len(xs) < 1000) { xs = xs + List<Int>(0); } batch (Dir r) { for (n in xs) { r.file(0).grow(n); } } }
----
0 done
exchanges 1
sizes 10 200
====
main { var xs = List<Int>(0); while (len(xs) < 501) { xs = xs + List<Int>(0); } val ys = xs; batch (Dir r) { for (n in xs) { r.file(0).grow(n); for (m in xs) { } } for (n in ys) { r.file(0).grow(n); } } }
----
1 fault 13 InputTooLarge at 3:94
exchanges 0
sizes 10 200
====
main { var xs = List<Int>(0); while (len(xs) < 501) { xs = xs + List<Int>(0); } batch (Dir r) { for (n in xs) { r.file(0).grow(n); } for (n in xs) { r.file(0).grow(n); } } }
----
0 done
exchanges 1
sizes 10 200
====
main { var xs = List<Int>(0); while (len(xs) < 1001) { xs = xs + List<Int>(0); } try { batch (Dir r) { for (n in xs) { r.file(0).grow(n); } } } catch (e) { print(e); } batch (Dir r) { r.file(0).grow(1); } }
----
0 InputTooLarge
done
exchanges 1
sizes 11 200
====
main { val by = List<Int>(1, 2, 3); batch (Dir r) { for (n in by) { r.file(0).grow(n); print(n); } } }
----
1 1
fault 7 FuelUsed at 3:53
exchanges 1
sizes 16 200
----
both p s 1
unsplit p s 1
====
main { val by = List<Int>(1, 2, 3); batch (Dir r) { r.burn(999997); for (n in by) { r.file(0).grow(n); print(n); } } }
----
1 fault 7 FuelUsed at 3:95
exchanges 1
sizes 10 200
----
both p s 1
unsplit p s 1
====
main { val by = List<Int>(1, 2, 3); batch (Dir r) { for (n in by) { r.file(0).grow(n); print(n); } } }
----
1 fault 7 FuelUsed at 3:53
exchanges 1
sizes 16 200
----
both p s 0
unsplit p s 0
====
main { val by = List<Int>(1, 2, 3); batch (Dir r) { r.burn(999999); for (n in by) { r.file(0).grow(n); print(n); } } }
----
1 fault 7 FuelUsed at 3:69
exchanges 1
sizes 10 200
----
both p s 0
unsplit p s 0"#;
