// Loops over lists that don't go along, and how each is mended.

/// Texts with a mistake, what is said of each, and each mended as that says.
pub static ROWS: &str = r#"a program behind interfaces
----
main {
  batch (D d) {
    for (x in List<Int>(1, 2)) { d.burn(x); }
  }
}
----
Local code goes over this list, and it runs only when the batch has come back.
Put `List<Int>(1, 2)` into a `val` before the batch, and go over that.
----
main {
  val numbers = List<Int>(1, 2);
  batch (D d) {
    for (x in numbers) { d.burn(x); }
  }
}
====
a program behind interfaces
----
main {
  batch (D d) {
    val by = List<Int>(1, 2);
    for (n in by) { d.burn(n); }
  }
}
----
Local code goes over this list, and it runs only when the batch has come back.
Move the declaration of `by` in line 3 before the batch.
----
main {
  val by = List<Int>(1, 2);
  batch (D d) {
    for (n in by) { d.burn(n); }
  }
}
====
a program behind interfaces
----
main {
  val more = List<Int>(3);
  batch (D d) {
    var by = List<Int>(1, 2);
    by = by + more;
    for (n in by) { d.burn(n); }
  }
}
----
Local code goes over this list, and it runs only when the batch has come back.
Move the declaration of `by` in line 4 and all that assigns it before the batch.
----
main {
  val more = List<Int>(3);
  var by = List<Int>(1, 2);
  by = by + more;
  batch (D d) {
    for (n in by) { d.burn(n); }
  }
}
====
a program behind interfaces
----
main {
  var by = List<Int>(1);
  batch (D d) {
    by = by + by;
    for (n in by) { d.burn(n); }
  }
}
----
Local code goes over this list, and it runs only when the batch has come back.
Move the assignment of `by` in line 4 before the batch.
----
main {
  var by = List<Int>(1);
  by = by + by;
  batch (D d) {
    for (n in by) { d.burn(n); }
  }
}
====
a program behind interfaces
----
main {
  var by = List<Int>(1);
  batch (D d) {
    for (n in by) { d.burn(n); }
    by = List<Int>();
  }
}
----
Local code goes over this list, and it runs only when the batch has come back.
Copy `by` into a `val` before the batch, and go over that.
----
main {
  var by = List<Int>(1);
  val first = by;
  batch (D d) {
    for (n in first) { d.burn(n); }
    by = List<Int>();
  }
}
====
a program behind interfaces
----
class P { n: Int; }
main {
  val ps = List<P>(new P(1), new P(2));
  batch (D d) {
    for (p in ps) { d.burn(p.n); }
  }
}
----
Local code goes over this list, and it runs only when the batch has come back.
A batch takes a List of Int, Bool or Text along: before the batch, put what the call needs of each item into one.
----
class P { n: Int; }
main {
  val ps = List<P>(new P(1), new P(2));
  var ns = List<Int>();
  for (p in ps) { ns = ns + List<Int>(p.n); }
  batch (D d) {
    for (n in ns) { d.burn(n); }
  }
}
====
a program behind interfaces
----
main {
  var sizes = List<Int>();
  batch (D d) {
    for (f in d.files()) { sizes = sizes + List<Int>(f.size()); }
    for (n in sizes) { d.burn(n); }
  }
}
----
Local code goes over this list, and it runs only when the batch has come back.
End the batch before `for (n in sizes)` in line 5, and begin a second one there.
----
main {
  var sizes = List<Int>();
  batch (D d) {
    for (f in d.files()) { sizes = sizes + List<Int>(f.size()); }
  }
  batch (D d) {
    for (n in sizes) { d.burn(n); }
  }
}
====
a program behind interfaces
----
main {
  batch (D d) {
    val sizes = List<Int>(d.file(0).size());
    for (n in sizes) { d.burn(n); }
  }
}
----
Local code goes over this list, and it runs only when the batch has come back.
Declare `sizes` by `var` before the batch, and assign it in place of its declaration.
End the batch before `for (n in sizes)` in line 4, and begin a second one there.
----
main {
  var sizes = List<Int>();
  batch (D d) {
    sizes = List<Int>(d.file(0).size());
  }
  batch (D d) {
    for (n in sizes) { d.burn(n); }
  }
}
====
a program behind interfaces
----
main {
  batch (D d) {
    for (n in List<Int>(d.file(0).size())) { d.burn(n); }
  }
}
----
Local code goes over this list, and it runs only when the batch has come back.
Let a List from before the batch keep the items, and go over it in a second batch.
----
main {
  var sizes = List<Int>();
  batch (D d) {
    sizes = List<Int>(d.file(0).size());
  }
  batch (D d) {
    for (n in sizes) { d.burn(n); }
  }
}
====
a program behind interfaces
----
main {
  batch (D d) {
    for (f in d.files()) {
      val sizes = List<Int>(f.size());
      for (n in sizes) { d.burn(n); }
    }
  }
}
----
Local code goes over this list, and it runs only when the batch has come back.
Let a List from before the batch keep the items, and go over it in a second batch.
----
main {
  var sizes = List<Int>();
  batch (D d) {
    for (f in d.files()) { sizes = sizes + List<Int>(f.size()); }
  }
  batch (D d) {
    for (n in sizes) { d.burn(n); }
  }
}"#;
