// What would be sent again, or isn't known when the batch begins, and how each is mended.

/// Texts with a mistake, what is said of each, and each mended as that says.
pub static ROWS: &str = r#"a program behind interfaces
----
main {
  batch (D d) {
    var size = d.file(0).size();
    size = size + 1;
    d.file(1).grow(size);
  }
}
----
A batch is sent before its results come back, so what local code puts into `size` can't go into it again.
Bind each value of `size` by a `val` with a name of its own, so that the server keeps it, and send the last.
----
main {
  batch (D d) {
    val size = d.file(0).size();
    val larger = size + 1;
    d.file(1).grow(larger);
  }
}
====
a program behind interfaces
----
main {
  batch (D d) {
    var size = d.file(0).size();
    d.file(1).grow(size + 1);
  }
}
----
A batch is sent before its results come back, so what local code puts into `size` can't go into it again.
Write `val size` in place of `var size` in line 3, so that the server keeps it.
----
main {
  batch (D d) {
    val size = d.file(0).size();
    d.file(1).grow(size + 1);
  }
}
====
a program behind interfaces
----
main {
  batch (D d) {
    var sum = 0;
    for (f in d.files()) { sum = sum + f.size(); }
    d.burn(sum);
  }
}
----
A batch is sent before its results come back, so what local code puts into `sum` can't go into it again.
Declare `sum` by `var` before the batch, and assign it in place of its declaration.
End the batch before `d.burn(sum)` in line 5, and begin a second one there.
----
main {
  var sum = 0;
  batch (D d) {
    sum = 0;
    for (f in d.files()) { sum = sum + f.size(); }
  }
  batch (D d) {
    d.burn(sum);
  }
}
====
a program behind interfaces
----
main {
  var count = 0;
  batch (D d) {
    for (f in d.files()) { count = count + 1; }
    d.burn(count);
  }
}
----
A batch is sent before its results come back, so what local code puts into `count` can't go into it again.
End the batch before `d.burn(count)` in line 5, and begin a second one there.
----
main {
  var count = 0;
  batch (D d) {
    for (f in d.files()) { count = count + 1; }
  }
  batch (D d) {
    d.burn(count);
  }
}
====
a program behind interfaces
----
main {
  batch (D d) {
    val f = d.file(0);
    var s = f.size();
    if (s > 10) { s = 10; }
    f.grow(s);
  }
}
----
A batch is sent before its results come back, so what local code puts into `s` can't go into it again.
Declare what both batches need by `var` before the batch, and get remote objects anew.
End the batch before `f.grow(s)` in line 6, and begin a second one there.
----
main {
  var s = 0;
  batch (D d) {
    val f = d.file(0);
    s = f.size();
    if (s > 10) { s = 10; }
  }
  batch (D d) {
    val f = d.file(0);
    f.grow(s);
  }
}
====
a program behind interfaces
----
class Box { v: Int; fun set(n: Int) { this.v = n; } fun get(): Int { return this.v; } }
main {
  val o = new Box(0);
  batch (D d) {
    o.set(d.file(0).size());
    d.burn(o.get());
  }
}
----
A batch is sent before its results come back, so what local code makes of a result can't go into it again.
End the batch before `d.burn(o.get())` in line 6, and begin a second one there.
Put `o.get()` into a `val` between the two, and send that.
----
class Box { v: Int; fun set(n: Int) { this.v = n; } fun get(): Int { return this.v; } }
main {
  val o = new Box(0);
  batch (D d) {
    o.set(d.file(0).size());
  }
  val size = o.get();
  batch (D d) {
    d.burn(size);
  }
}
====
a program behind interfaces
----
main {
  var n = 1;
  batch (D d) {
    d.burn(n);
    n = d.file(0).size();
  }
  print(n);
}
----
A batch is sent before its results come back, so what local code puts into `n` can't go into it again.
Copy `n` into a `val` before the batch, and send that.
----
main {
  var n = 1;
  val first = n;
  batch (D d) {
    d.burn(first);
    n = d.file(0).size();
  }
  print(n);
}
====
a program behind interfaces
----
main {
  var sum = 0;
  batch (D d) {
    for (f in d.files()) {
      sum = sum + f.size();
      f.grow(sum);
    }
  }
}
----
A batch is sent before its results come back, so what local code puts into `sum` can't go into it again.
Keep in a List what this batch gives; then begin a batch for each item, in a `while` after it.
----
main {
  var sum = 0;
  var sums = List<Int>();
  batch (D d) {
    for (f in d.files()) {
      sum = sum + f.size();
      sums = sums + List<Int>(sum);
    }
  }
  var i = 0;
  while (i < len(sums)) {
    val by = sums[i];
    batch (D d) { d.file(i).grow(by); }
    i = i + 1;
  }
}
====
a program behind interfaces
----
main {
  batch (D d) {
    var by = 5;
    d.burn(by);
  }
}
----
`by` isn't known when the batch begins, and what a batch sends has to be.
Write `val by` in place of `var by` in line 3, so that the server keeps it.
----
main {
  batch (D d) {
    val by = 5;
    d.burn(by);
  }
}
====
a program behind interfaces
----
main {
  var n = 1;
  batch (D d) {
    n = 2;
    d.burn(n);
  }
}
----
`n` isn't known when the batch begins, and what a batch sends has to be.
Move the assignment of `n` in line 4 before the batch.
----
main {
  var n = 1;
  n = 2;
  batch (D d) {
    d.burn(n);
  }
}
====
a program behind interfaces
----
main {
  var n = 1;
  batch (D d) {
    d.burn(n);
    n = 2;
  }
}
----
`n` isn't known when the batch begins, and what a batch sends has to be.
Copy `n` into a `val` before the batch, and send that.
----
main {
  var n = 1;
  val first = n;
  batch (D d) {
    d.burn(first);
    n = 2;
  }
}
====
a program behind interfaces
----
main {
  batch (D d) {
    var n = 1;
    if (n > 0) { n = 2; }
    d.burn(n);
  }
}
----
`n` isn't known when the batch begins, and what a batch sends has to be.
Move the declaration of `n` in line 3 and all that assigns it before the batch.
----
main {
  var n = 1;
  if (n > 0) { n = 2; }
  batch (D d) {
    d.burn(n);
  }
}
====
a program behind interfaces
----
main {
  val a = List<Int>(1);
  batch (D d) { d.burn(a[0]); }
}
----
This isn't known when the batch begins, and what a batch sends has to be.
Put the Int, Bool or Text that is meant into a `val` before the batch, and write that here.
----
main {
  val a = List<Int>(1);
  val first = a[0];
  batch (D d) { d.burn(first); }
}
====
a program behind interfaces
----
main {
  batch (D d) {
    val a = List<Int>(1)[0];
    d.burn(a);
  }
}
----
`a` isn't known when the batch begins, and what a batch sends has to be.
Move the declaration of `a` in line 3 before the batch.
----
main {
  val a = List<Int>(1)[0];
  batch (D d) {
    d.burn(a);
  }
}
====
a program behind interfaces
----
class Box { v: Int; fun set(n: Int) { this.v = n; } fun get(): Int { return this.v; } }
main {
  val b = new Box(1);
  batch (D d) { d.burn(b.v); }
}
----
This isn't known when the batch begins, and what a batch sends has to be.
Put the Int, Bool or Text that is meant into a `val` before the batch, and write that here.
----
class Box { v: Int; fun set(n: Int) { this.v = n; } fun get(): Int { return this.v; } }
main {
  val b = new Box(1);
  val v = b.v;
  batch (D d) { d.burn(v); }
}"#;
