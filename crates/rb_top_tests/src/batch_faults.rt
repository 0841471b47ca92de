// Faults of batches: remote ones, local ones, and what code around the batch catches.

/// Turns that take a unit of the batch, faults and the effects that stand behind them, faults that are caught, and want of
/// fuel.
pub static ROWS: &str =
    r#"main { batch (Dir r) { val fs = r.files(); r.burn(999999); for (f in fs) { print(f.size()); } } }
----
1 fault 7 FuelUsed at 3:46
exchanges 1
sizes 10 200
====
main { batch (Dir r) { val fs = r.files(); r.burn(999998); for (f in fs) { print(f.size()); } } }
----
1 fault 7 FuelUsed at 3:60
exchanges 1
sizes 10 200
====
main { batch (Dir r) { val fs = r.files(); r.burn(999997); for (f in fs) { print(f.size()); } } }
----
1 fault 7 FuelUsed at 3:84
exchanges 1
sizes 10 200
====
main { batch (Dir r) { val fs = r.files(); r.burn(999996); for (f in fs) { print(f.size()); } } }
----
1 10
fault 7 FuelUsed at 3:60
exchanges 1
sizes 10 200
====
main { batch (Dir r) { val fs = r.files(); r.burn(999995); for (f in fs) { print(f.size()); } } }
----
1 10
fault 7 FuelUsed at 3:84
exchanges 1
sizes 10 200
====
main { batch (Dir r) { val fs = r.files(); r.burn(999994); for (f in fs) { print(f.size()); } } }
----
0 10
200
done
exchanges 1
sizes 10 200
====
main { batch (Dir r) { r.burn(999999); for (f in r.files()) { print(1); } } }
----
1 fault 7 FuelUsed at 3:52
exchanges 1
sizes 10 200
====
main { batch (Dir r) { val fs = r.files(); r.burn(999997); for (f in fs) { print(1); } } }
----
1 1
fault 7 FuelUsed at 3:60
exchanges 1
sizes 10 200
====
main { batch (Dir r) { for (f in r.files()) { print(f.name()); f.check(100); f.grow(1); } } }
----
1 a
bb
fault 8 Thrown "Big" at 3:66
exchanges 1
sizes 11 200
====
main { val a = 1; val b = 0; batch (Dir r) { r.file(0).grow(1); r.file(1).grow(a / b); } }
----
1 fault 1 DivZero at 3:82
exchanges 1
sizes 11 200
====
main { batch (Dir r) { print(r.file(7).size()); r.file(0).grow(1); } }
----
1 fault 2 Index at 3:32
exchanges 1
sizes 10 200
====
main { batch (Dir r) { r.file(7).grow(1); r.file(0).grow(1); } }
----
1 fault 2 Index at 3:26
exchanges 1
sizes 10 200
====
main { batch (Dir r) { val s = r.file(7).size(); r.file(0).grow(s); } }
----
1 fault 2 Index at 3:34
exchanges 1
sizes 10 200
====
main { val b = 0; batch (Dir r) { val s = r.file(0).size() / b; r.file(0).grow(1); } }
----
1 fault 1 DivZero at 3:60
exchanges 1
sizes 10 200
====
main { val b = 0; batch (Dir r) { print(r.file(0).size() / b); r.file(0).grow(1); } }
----
1 fault 1 DivZero at 3:58
exchanges 1
sizes 10 200
====
main { val b = 0; batch (Dir r) { print(r.file(1 / b).size()); r.file(0).grow(1); } }
----
1 fault 1 DivZero at 3:50
exchanges 1
sizes 10 200
====
main { val b = 0; batch (Dir r) { r.file(0).grow(1 / b); r.file(0).grow(1); } }
----
1 fault 1 DivZero at 3:52
exchanges 1
sizes 10 200
====
main { batch (Dir r) { var n = 1; n = n + r.file(7).size(); r.file(0).grow(1); } }
----
1 fault 2 Index at 3:45
exchanges 1
sizes 10 200
====
main { batch (Dir r) { var z = 0; print(List<Int>(z)[r.file(7).size()]); r.file(0).grow(1); } }
----
1 fault 2 Index at 3:56
exchanges 1
sizes 10 200
====
main { batch (Dir r) { if (r.file(7).size() > 1) { r.file(0).grow(1); } r.file(0).grow(1); } }
----
1 fault 2 Index at 3:30
exchanges 1
sizes 10 200
====
main { val b = 0; batch (Dir r) { if (1 / b > 0) { r.file(0).grow(1); } r.file(0).grow(1); } }
----
1 fault 1 DivZero at 3:41
exchanges 1
sizes 10 200
====
main { batch (Dir r) { for (f in r.files()) { if (f.size() < 100) { f.check(1); } f.grow(1); } r.file(0).grow(1); } }
----
1 fault 8 Thrown "Big" at 3:71
exchanges 1
sizes 10 200
====
main { batch (Dir r) { val t = r.file(0).name(); if (t == "a" && r.file(7).size() > 0) { r.file(0).grow(1); } r.file(0).grow(1); } }
----
1 fault 2 Index at 3:68
exchanges 1
sizes 10 200
====
main { val b = 0; batch (Dir r) { val s = 10 / b; r.file(0).grow(1); } }
----
1 fault 1 DivZero at 3:46
exchanges 1
sizes 10 200
====
main { val b = 0; batch (Dir r) { if (1 / b > 0) { print(1); } r.file(0).grow(1); } }
----
1 fault 1 DivZero at 3:41
exchanges 1
sizes 11 200
====
main { var z = 0; batch (Dir r) { z = z * 2; print(1 / z); r.file(0).grow(1); r.file(1).grow(1); } }
----
1 fault 1 DivZero at 3:54
exchanges 1
sizes 11 201
====
main { batch (Dir r) { var z = 0; print(1 / z); r.file(0).grow(1); r.file(1).grow(1); } }
----
1 fault 1 DivZero at 3:43
exchanges 1
sizes 11 201
====
main { batch (Dir r) { var z = 0; r.file(0).grow(1); print(1 / z); r.file(1).grow(1); } }
----
1 fault 1 DivZero at 3:62
exchanges 1
sizes 11 201
====
main { batch (Dir r) { var z = 0; r.file(0).grow(1); r.file(1).grow(1); print(1 / z); } }
----
1 fault 1 DivZero at 3:81
exchanges 1
sizes 11 201
====
main { batch (Dir r) { print(List<Int>(1)[r.file(0).size()]); r.file(0).grow(1); } }
----
1 fault 2 Index at 3:42
exchanges 1
sizes 11 200
====
main { batch (Dir r) { var z = 0; print(1 / z); r.file(0).grow(1); r.file(7).grow(1); r.file(1).grow(1); } }
----
1 fault 1 DivZero at 3:43
exchanges 1
sizes 11 200
====
main { batch (Dir r) { var z = 0; print(1 / z); if (r.file(0).size() > 1) { r.file(0).grow(1); } else { r.file(1).grow(1); } } }
----
1 fault 1 DivZero at 3:43
exchanges 1
sizes 11 200
====
main { val b = 0; batch (Dir r) { r.file(0).grow(1); throw "no"; } }
----
1 fault 8 Thrown "no" at 3:54
exchanges 1
sizes 11 200
====
main { val b = 0; batch (Dir r) { r.file(0).grow(1); val k = 1 / b; r.file(1).grow(1); } }
----
1 fault 1 DivZero at 3:64
exchanges 1
sizes 11 200
====
main { val a = 1; val b = 0; batch (Dir r) { r.file(0).grow(1); val k = a / b; r.file(1).grow(k); } }
----
1 fault 1 DivZero at 3:75
exchanges 1
sizes 11 200
====
main { batch (Dir r) { for (f in r.files()) { var z = 0; print(1 / z); f.grow(1); } } }
----
1 fault 1 DivZero at 3:66
exchanges 1
sizes 11 201
====
main { batch (Dir r) { var z = 1; for (f in r.files()) { print(1 / z); z = z - 1; f.grow(1); } } }
----
1 1
fault 1 DivZero at 3:66
exchanges 1
sizes 11 201
====
main { batch (Dir r) { for (f in r.files()) { f.grow(1); if (f.size() > 100) { throw "no"; } print(f.name()); f.grow(1); } } }
----
1 a
fault 8 Thrown "no" at 3:80
exchanges 1
sizes 12 202
====
main { try { batch (Dir r) { for (f in r.files()) { print(f.name()); f.check(100); f.grow(1); } } } catch (e) { print(e); } }
----
0 a
bb
Big
done
exchanges 1
sizes 11 200
====
main { val b = 0; try { batch (Dir r) { if (1 / b > 0) { r.file(0).grow(1); } r.file(0).grow(1); } } catch (e) { print(e); } }
----
0 DivZero
done
exchanges 1
sizes 10 200
====
main { try { batch (Dir r) { r.file(7).grow(1); r.file(0).grow(1); } } catch (e) { print(e); } }
----
0 Index
done
exchanges 1
sizes 10 200
====
main { try { batch (Dir r) { var z = 0; print(1 / z); r.file(0).grow(1); r.file(1).grow(1); } } catch (e) { print(e); } }
----
0 DivZero
done
exchanges 1
sizes 11 201
====
main { try { batch (Dir r) { var z = 0; r.file(0).grow(1); print(1 / z); r.file(1).grow(1); } } catch (e) { print(e); } }
----
0 DivZero
done
exchanges 1
sizes 11 201
====
main { try { batch (Dir r) { var z = 0; r.file(0).grow(1); r.file(1).grow(1); print(1 / z); } } catch (e) { print(e); } }
----
0 DivZero
done
exchanges 1
sizes 11 201
====
main { try { batch (Dir r) { for (f in r.files()) { if (f.size() > 100) { throw "no"; } print(f.name()); f.grow(1); } } } catch (e) { print(e); } }
----
0 a
no
done
exchanges 1
sizes 11 201
====
main { var n = 0; try { batch (Dir r) { n = 1; r.file(0).grow(1); r.file(7).grow(1); n = 2; } } catch (e) { print(e); } print(n); batch (Dir r) { print(r.file(0).size()); } }
----
0 Index
1
11
done
exchanges 2
sizes 11 200
====
main { var n = 0; try { batch (Dir r) { n = 1; throw "no"; r.file(0).grow(1); n = 2; } } catch (e) { print(e); } print(n); batch (Dir r) { print(r.file(0).size()); } }
----
0 no
1
11
done
exchanges 2
sizes 11 200
====
main { var n = 0; try { batch (Dir r) { n = 1; throw "no"; r.file(0).grow(1); } } catch (e) { batch (Dir r) { print(r.file(0).size()); r.file(0).grow(n); } } }
----
0 11
done
exchanges 2
sizes 12 200
====
main { batch (Dir r) { try { throw "no"; } catch (e) { print(e); } r.file(0).grow(1); } }
----
0 no
done
exchanges 1
sizes 11 200
====
main { try { batch (Dir r) { for (f in r.files()) { var z = 0; print(1 / z); f.grow(1); } } } catch (e) { print(e); } batch (Dir r) { for (f in r.files()) { print(f.size()); } } }
----
0 DivZero
11
201
done
exchanges 2
sizes 11 201
====
main { try { batch (Dir r) { for (f in r.files()) { print(f.name()); f.check(100); f.grow(1); } } } catch (e) { print(e); } batch (Dir r) { for (f in r.files()) { print(f.size()); f.grow(1); } } }
----
0 a
bb
Big
11
200
done
exchanges 2
sizes 12 201
====
main { try { batch (Dir r) { r.burn(1000000); } } catch (e) { print(e); } batch (Dir r) { r.burn(999997); print(r.file(0).size()); } }
----
0 FuelUsed
10
done
exchanges 2
sizes 10 200
====
main { try { batch (Dir r) { val fs = r.files(); r.burn(999996); for (f in fs) { print(f.size()); } } } catch (e) { print(e); } print(1); }
----
0 10
FuelUsed
1
done
exchanges 1
sizes 10 200
====
main { try { batch (Dir r) { r.burn(1000000); } } catch (e) { batch (Dir r) { r.file(0).grow(len(e)); } } }
----
0 done
exchanges 2
sizes 18 200
====
main { try { batch (Dir r) { val fs = r.files(); r.burn(999998); for (f in fs) { print(f.size()); } } } catch (e) { print(e); } }
----
0 FuelUsed
done
exchanges 1
sizes 10 200
====
main { batch (Dir r) { r.file(0).grow(1); while (true) { print(0); } r.file(1).grow(1); } }
----
1 0
0
0
fault 7 FuelUsed at 3:43
exchanges 1
sizes 11 201
----
both p s 3
unsplit p s 3
====
main { try { batch (Dir r) { r.file(0).grow(1); while (true) { print(0); } r.file(1).grow(1); } } catch (e) { print(e); } }
----
1 0
0
0
fault 7 FuelUsed at 3:49
exchanges 1
sizes 11 201
----
both p s 3
unsplit p s 3
====
main { batch (Dir r) { for (f in r.files()) { val s = f.size(); for (n in List<Int>(1, 2)) { print(n + s); } f.grow(1); } } }
----
1 11
12
201
fault 7 FuelUsed at 3:65
exchanges 1
sizes 11 201
----
both p s 3
unsplit p s 3"#;
