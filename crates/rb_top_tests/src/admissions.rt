// Which programs are admitted, and which refusal is the first.

/// What `check` answers on texts behind the interfaces: each refusal alone, which place and which number counts of several,
/// what stands above an operation, what stays in the script, and batches of methods and calls.
pub static LINES: &str =
    r#"5 refused 3 UnderLocalCondition 3:48 3:57|main { var n = 1; batch (Dir r) { n = 2; if (n > 0) { r.file(0).grow(1); } } }
0 accepted|main { var n = 1; batch (Dir r) { if (n > 0) { r.file(0).grow(1); } } }
5 refused 2 NotConstant 3:50|main { batch (Dir r) { var n = 1; r.file(0).grow(n); } }
5 refused 4 Escapes 3:32|main { batch (Dir r) { print(r.file(0)); } }
5 refused 7 RemoteVar 3:24|main { batch (Dir r) { var f = r.file(0); } }
5 refused 5 BatchInside 3:24|main { batch (Dir r) { batch (Dir q) { } } }
5 refused 6 InTry 3:32|main { batch (Dir r) { try { r.file(0).grow(1); } catch (e) { } } }
5 refused 4 Escapes 3:32|main { batch (Dir r) { print(r.file(0)); var f = r.file(1); } }
5 refused 7 RemoteVar 3:24|main { batch (Dir r) { var f = r.file(1); print(r.file(0)); } }
5 refused 5 BatchInside 3:24|main { batch (Dir r) { batch (Dir q) { } var n = 1; r.file(0).grow(n); } }
5 refused 2 NotConstant 3:50|main { batch (Dir r) { var n = 1; r.file(0).grow(n); batch (Dir q) { } } }
5 refused 1 Flow 3:42 3:24 3:65|main { batch (Dir r) { var s = r.file(0).size(); r.file(1).grow(s); var n = 1; r.file(0).grow(n); } }
5 refused 2 NotConstant 3:50|main { batch (Dir r) { var n = 1; r.file(0).grow(n); var s = r.file(0).size(); r.file(1).grow(s); } }
5 refused 6 InTry 3:32|main { batch (Dir r) { try { r.burn(1); } catch (e) { } var f = r.file(0); } }
5 refused 7 RemoteVar 3:24|main { batch (Dir r) { var f = r.file(0); try { r.burn(1); } catch (e) { } } }
5 refused 3 UnderLocalCondition 3:41 3:50|main { batch (Dir r) { var n = 1; if (n > 0) { r.burn(2); } print(r.file(0)); } }
5 refused 4 Escapes 3:32|main { batch (Dir r) { print(r.file(0)); var n = 1; if (n > 0) { r.burn(2); } } }
5 refused 4 Escapes 3:32|main { batch (Dir r) { print(r.files()); batch (Dir q) { } } }
5 refused 5 BatchInside 3:24|main { batch (Dir r) { batch (Dir q) { } print(r.files()); } }
5 refused 3 UnderLocalCondition 3:44 3:59|main { batch (Dir r) { var n = 1; while (n > 0) { try { r.burn(1); } catch (e) { } } } }
5 refused 3 UnderLocalCondition 3:44 3:59|main { batch (Dir r) { var n = 1; while (n > 0) { print(r.file(0)); } } }
5 refused 4 Escapes 3:38|main { batch (Dir r) { try { print(r.file(0)); } catch (e) { } } }
5 refused 2 NotConstant 3:42|main { batch (Dir r) { var n = 1; r.file(n).grow(r.file(0).size()); var m = r.file(n).size(); r.file(m).grow(n); } }
5 refused 3 UnderLocalCondition 3:41 3:58|main { batch (Dir r) { var n = 1; if (n > 0) { var k = r.file(0).size(); r.file(k).grow(n); } } }
5 refused 3 UnderLocalCondition 3:63 3:56|main { batch (Dir r) { for (f in r.files()) { while (f.size() > 1) { } } } }
5 refused 3 UnderLocalCondition 3:42 3:49|main { batch (Dir r) { var k = true; k = k && r.file(0).size() > 1; } }
5 refused 3 UnderLocalCondition 3:42 3:49|main { batch (Dir r) { var k = true; k = k || r.file(0).size() > 1; } }
5 refused 3 UnderLocalCondition 3:64 3:71|main { batch (Dir r) { var n = 0; for (a in r.files()) { if (n > 0) { for (f in r.files()) { f.grow(1); } } } } }
5 refused 3 UnderLocalCondition 3:57 3:66|main { batch (Dir r) { var n = 0; if (n > 0) { while (n > 1) { r.burn(1); } } } }
5 refused 3 UnderLocalCondition 3:34 3:50|main { batch (Dir r) { for (x in List<Int>(1)) { for (f in r.files()) { } } } }
5 refused 1 Flow 3:52 3:24 3:90|main { batch (Dir r) { val l = List<Int>(r.file(0).size()); print(len(l)); print(r.file(l[0]).size()); } }
5 refused 4 Escapes 3:24|main { batch (Dir r) { r; } }
0 accepted|main { batch (Dir r) { r.file(0); } }
0 accepted|main { batch (Dir r) { val fs = r.files(); for (f in fs) { print(f.size()); } } }
5 refused 4 Escapes 3:50|main { batch (Dir r) { val fs = r.files(); print(fs); } }
0 accepted|main { batch (Dir r) { if (true) { val f = r.file(0); f.grow(1); } } }
5 refused 4 Escapes 3:59|main { batch (Dir r) { var n = 1; while (n > 0) { val q = r; n = 0; } } }
5 refused 4 Escapes 3:38|main { batch (Dir r) { try { val q = r; } catch (e) { } } }
5 refused 7 RemoteVar 3:24|main { batch (Dir r) { var q = r; } }
5 refused 7 RemoteVar 3:24|main { batch (Dir r) { var fs = r.files(); } }
5 refused 7 RemoteVar 3:24|main { batch (Dir r) { var f = r.file(0); f = r.file(1); } }
5 refused 1 Flow 3:71 3:53 3:86|class C { v: Int; remote fun go() { batch (Dir r) { var s = r.file(0).size(); r.burn(s); } } } main { }
5 refused 2 NotConstant 3:75|class C { v: Int; remote fun go(n: Int) { batch (Dir r) { r.burn(n + this.v); } } } main { }
0 accepted|class C { v: Int; remote fun go(n: Int) { val k = n; batch (Dir r) { r.burn(k); } } } main { new C(1).go(2); }
5 refused 5 BatchInside 3:102|class C { v: Int; remote fun go() { batch (Dir r) { r.burn(1); } } } main { batch (Dir r) { new C(1).go(); } }
5 refused 4 Escapes 3:50|class C { remote fun f() { batch (Dir r) { print(r); } } remote fun g() { batch (Dir r) { var f = r.file(0); } } } main { batch (Dir r) { r; } }
5 refused 1 Flow 3:71 3:53 3:86|main { batch (Dir r) { r.burn(1); } batch (Dir r) { var s = r.file(0).size(); r.burn(s); } }
5 refused 4 Escapes 3:59|main { batch (Dir r) { r.burn(1); } batch (Dir r) { print(r); } batch (Dir r) { var f = r.file(0); } }
5 refused 4 Escapes 3:82|main { if (true) { batch (Dir r) { r.burn(1); } } else { batch (Dir r) { print(r.files()); } } }
0 accepted|main { while (false) { batch (Dir r) { r.burn(1); } } for (x in List<Int>(1)) { batch (Dir r) { r.burn(x); } } }
0 accepted|main { var k = 1; while (k > 0) { batch (Dir r) { k = r.file(0).size(); r.burn(2); } batch (Dir r) { r.burn(k); } } }
5 refused 3 UnderLocalCondition 3:77 3:85|main { var by = List<Int>(1, 2, 3); batch (Dir r) { by = by + by; for (n in by) { r.file(0).grow(n); print(n); } } }
5 refused 3 UnderLocalCondition 3:57 3:65|main { batch (Dir r) { val by = List<Int>(1); for (n in by) { r.file(0).grow(n); } } }
5 refused 3 UnderLocalCondition 3:54 3:81|main { val by = List<Int>(1); batch (Dir r) { while (false) { for (n in by) { r.file(0).grow(n); } } } }
5 refused 3 UnderLocalCondition 3:74 3:82|main { val by = List<List<Int>>(List<Int>(1)); batch (Dir r) { for (n in by) { r.file(0).grow(len(n)); } } }
5 refused 2 NotConstant 3:89|main { val by = List<Int>(1); batch (Dir r) { for (n in by) { var m = n; r.file(0).grow(m); } } }
5 refused 3 UnderLocalCondition 3:60 3:70|main { val by = List<Int>(1); batch (Dir r) { for (n in by + by) { r.file(0).grow(n); } } }
5 refused 6 InTry 3:71|main { val by = List<Int>(1); batch (Dir r) { for (n in by) { try { r.file(0).grow(n); } catch (e) { } } } }"#;
