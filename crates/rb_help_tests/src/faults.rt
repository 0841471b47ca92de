// Faults of runs.

/// Faults of operators, limits that are reached, servers that aren't the one that is meant, and faults of the service's code.
pub static ROWS: &str = r#"Fault 1 at /
----
main {
  print(1 / 0);
}

----
2 |   print(1 / 0);
  |           ^
This divides by 0.
Test the divisor before, or catch the fault by `try`.
====
Fault 2 at [1
----
main { print(List<Int>(1)[1]); }
----
1 | main { print(List<Int>(1)[1]); }
  |                          ^
The index is below 0, or not below the number of items.
Compare it with `len` of the list before, or catch the fault by `try`.
====
Fault 3 at +
----
main { t = t + t; }
----
1 | main { t = t + t; }
  |              ^
The joined text would have more than 4096 bytes.
Keep the pieces in a List, or print them one by one.
====
Fault 4 at +
----
main { a = a + a; }
----
1 | main { a = a + a; }
  |              ^
The list would have more than 10000 items.
Keep the items in several lists.
====
Fault 5 at new
----
main { val a = new A(); }
----
1 | main { val a = new A(); }
  |                ^
There are 100000 objects already, and no more can be made.
Use objects again rather than making new ones.
====
Fault 6 at m();
----
main { a.m(); }
----
1 | main { a.m(); }
  |          ^
32 calls are under way here already, and no deeper one can be made.
Let a `while` do what the method does by calling itself.
====
Fault 7 at while
----
main { while (true) { } }
----
1 | main { while (true) { } }
  |        ^
The fuel is used up: each call of a method and each turn of a loop takes one unit.
See whether it ends. The last word of a command gives a run more; at the server each batch has 1000000 units.
====
Fault 8 at throw
----
main { throw "Big"; }
----
1 | main { throw "Big"; }
  |        ^
"Big" was thrown, and nothing caught it.
Catch it by `try { .. } catch (e) { .. }`, or see why it is thrown.
====
Fault 13 at batch
----
main { batch (D r) { for (n in ns) { r.m(n); } } }
----
1 | main { batch (D r) { for (n in ns) { r.m(n); } } }
  |        ^
The lists that this batch takes along have more than 1000 items together.
Go over them in parts, by a `while` with a batch in it that takes at most 1000 along.
====
Fault 9 at m();
----
main { batch (D r) { r.m(); } }
----
1 | main { batch (D r) { r.m(); } }
  |                        ^
At the server the object isn't there, or its class has no method `m`.
Compare the interface in the program with the class in the service.
====
Fault 10 at m();
----
main { batch (D r) { r.m(); } }
----
1 | main { batch (D r) { r.m(); } }
  |                        ^
At the server the method `m` takes other arguments.
Compare the interface in the program with the class in the service.
====
Fault 11 at m();
----
main { batch (D r) { r.m(); } }
----
1 | main { batch (D r) { r.m(); } }
  |                        ^
At the server the method `m` gave another kind of value than the interface promises.
Compare the interface in the program with the class in the service.
====
Fault 12 at m();
----
main { batch (D r) { r.m(); } }
----
1 | main { batch (D r) { r.m(); } }
  |                        ^
A value is of a kind that can't be used here.
No program that is accepted does this by itself; see whether the server is the one that is meant.
====
Fault 14 at m();
----
main { batch (D r) { r.m(); } }
----
1 | main { batch (D r) { r.m(); } }
  |                        ^
The program ended here, by a fault without a name.
See whether the server is the one that is meant.
====
Fault 1 at m();
----
main { batch (D r) { r.m(); } }
----
1 | main { batch (D r) { r.m(); } }
  |                        ^
At the server `m` came to a division by 0.
See why in the service; or catch the fault by a `try` around the whole batch.
====
Fault 2 at m();
----
main { batch (D r) { r.m(); } }
----
1 | main { batch (D r) { r.m(); } }
  |                        ^
At the server `m` came to an index below 0, or not below the number of items.
See why in the service; or catch the fault by a `try` around the whole batch.
====
Fault 3 at m();
----
main { batch (D r) { r.m(); } }
----
1 | main { batch (D r) { r.m(); } }
  |                        ^
At the server `m` came to a Text of more than 4096 bytes.
See why in the service; or catch the fault by a `try` around the whole batch.
====
Fault 4 at m();
----
main { batch (D r) { r.m(); } }
----
1 | main { batch (D r) { r.m(); } }
  |                        ^
At the server `m` came to a List of more than 10000 items.
See why in the service; or catch the fault by a `try` around the whole batch.
====
Fault 5 at m();
----
main { batch (D r) { r.m(); } }
----
1 | main { batch (D r) { r.m(); } }
  |                        ^
At the server `m` would make an object, and there are 100000 already.
See why in the service; or catch the fault by a `try` around the whole batch.
====
Fault 8 at m();
----
main { batch (D r) { r.m(); } }
----
1 | main { batch (D r) { r.m(); } }
  |                        ^
"Big" was thrown at the server, and nothing caught it.
See why in the service; or catch the fault by a `try` around the whole batch.
====
Fault 6 at m(); } }
----
interface D { fun m(); } main { batch (D r) { r.m(); } }
----
1 | interface D { fun m(); } main { batch (D r) { r.m(); } }
  |                                                 ^
At the server `m` came to a call within 32 others, and no deeper one can be made.
Let a `while` in the service do what the method does by calling itself; or catch the fault by a `try` around the batch.
====
Fault 7 at m(); } }
----
interface D { fun m(); } main { batch (D r) { r.m(); } }
----
1 | interface D { fun m(); } main { batch (D r) { r.m(); } }
  |                                                 ^
At the server the 1000000 units of fuel of this batch are used up: each call and each turn takes one.
See whether the loop in the service ends; or divide the batch into several, of which each has as many."#;
