// Programs with batches.

/// Operations where they stand, batches one after the other, in methods and in loops; and a program that is refused.
pub static ROWS: &str = r#"main { batch (Dir r) { } }
----
0 done
exchanges 1
sizes 10 200
====
main { batch (Dir r) { print(r.file(0).name()); print(r.file(1).name()); } }
----
0 a
bb
done
exchanges 1
sizes 10 200
====
main { batch (Dir r) { for (f in r.files()) { print(f.size()); f.grow(1); } } }
----
0 10
200
done
exchanges 1
sizes 11 201
====
main { batch (Dir r) { for (f in r.files()) { if (f.size() > 100) { print(f.name()); f.grow(5); } } } }
----
0 bb
done
exchanges 1
sizes 10 205
====
main { batch (Dir r) { val s = r.file(0).size(); r.file(1).grow(s + 1); } }
----
0 done
exchanges 1
sizes 10 211
====
main { var n = 1; batch (Dir r) { if (n > 0) { r.file(0).grow(1); } } }
----
0 done
exchanges 1
sizes 11 200
====
main { batch (Dir r) { for (a in r.files()) { for (b in r.files()) { var n = 0; for (c in r.files()) { n = n + a.size() + b.size() + c.size(); } print(n); } } } }
----
0 250
630
630
1010
done
exchanges 1
sizes 10 200
====
main { batch (Dir r) { r.file(0).grow(5); } var s = 0; batch (Dir r) { s = r.file(0).size(); r.file(1).grow(1); } print(s); batch (Dir r) { print(r.file(0).size() + r.file(1).size()); } }
----
0 15
216
done
exchanges 3
sizes 15 201
====
main { var i = 0; while (i < 3) { i = i + 1; batch (Dir r) { r.file(0).grow(i); print(r.file(0).size()); } } }
----
0 11
13
16
done
exchanges 3
sizes 16 200
====
main { for (n in List<Int>(5, 7)) { batch (Dir r) { r.file(1).grow(n); } } }
----
0 done
exchanges 2
sizes 10 212
====
class Box { n: Int; remote fun grown(by: Int): Int { this.n = this.n + 1; var s = 0; batch (Dir r) { r.file(0).grow(by); s = r.file(0).size(); } return s; } } main { val b = new Box(0); print(b.grown(1)); print(b.grown(2)); print(b.n); }
----
0 11
13
2
done
exchanges 2
sizes 13 200
====
class Box { remote fun tried(i: Int) { try { batch (Dir r) { r.file(i).grow(1); } } catch (e) { print(e); } } } main { val b = new Box(); b.tried(0); b.tried(7); b.tried(1); }
----
0 Index
done
exchanges 3
sizes 11 201
====
main { var s = 0; while (s < 13) { batch (Dir r) { r.file(0).grow(1); s = r.file(0).size(); } } print(s); }
----
0 13
done
exchanges 3
sizes 13 200
====
main { var big = false; while (!big) { batch (Dir r) { for (f in r.files()) { f.grow(40); } big = r.file(0).size() > 100; } } }
----
0 done
exchanges 3
sizes 130 320
====
main { var n = 1; batch (Dir r) { n = 2; if (n > 0) { r.file(0).grow(1); } } }
----
5 refused 3 UnderLocalCondition 3:48 3:57"#;

/// Programs behind interfaces that differ from the classes of the directory.
pub static DIFFERING: &str = r#"main { batch (Dir r) { print(r.file(0).size()); } }
----
1 fault 11 WrongKind at 3:40
exchanges 1
sizes 10 200
====
main { batch (Dir r) { r.file(0).lost(); } }
----
1 fault 9 NoMethod at 3:34
exchanges 1
sizes 10 200
====
main { batch (Dir r) { r.file(7).lost(); } }
----
1 fault 2 Index at 3:26
exchanges 1
sizes 10 200"#;
