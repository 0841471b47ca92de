// Batches that are refused for other reasons, and how each is mended.

/// Texts with a mistake, what is said of each, and each mended as that says.
pub static ROWS: &str = r#"a program behind interfaces
----
main {
  var n = 1;
  batch (D d) {
    n = 2;
    if (n > 0) { d.burn(1); }
  }
}
----
Local code decides whether the call is made, and it runs only when the batch has come back.
End the batch before the `if` in line 5, and begin a second one in it.
----
main {
  var n = 1;
  batch (D d) {
    n = 2;
  }
  if (n > 0) { batch (D d) { d.burn(1); } }
}
====
a program behind interfaces
----
main {
  val n = 1;
  batch (D d) {
    var k = n;
    if (k > 0) { d.burn(1); }
  }
}
----
Local code decides whether the call is made, and it runs only when the batch has come back.
Write `val k` in place of `var k` in line 4, so that the server keeps it.
----
main {
  val n = 1;
  batch (D d) {
    val k = n;
    if (k > 0) { d.burn(1); }
  }
}
====
a program behind interfaces
----
main {
  var n = 3;
  batch (D d) {
    while (n > 0) { d.burn(1); n = n - 1; }
  }
}
----
Local code decides whether the call is made, and it runs only when the batch has come back.
Let the `while` go around the batch, and the batch begin in it.
----
main {
  var n = 3;
  while (n > 0) {
    batch (D d) { d.burn(1); n = n - 1; }
  }
}
====
a program behind interfaces
----
main {
  batch (D d) {
    while (d.file(0).size() < 9) { d.file(0).grow(1); }
  }
}
----
Local code decides whether the call is made, and it runs only when the batch has come back.
Let the `while` ask a `var`, and begin a batch in it that assigns the `var`.
----
main {
  var goes_on = true;
  while (goes_on) {
    batch (D d) {
      d.file(0).grow(1);
      goes_on = d.file(0).size() < 9;
    }
  }
}
====
a program behind interfaces
----
main {
  var k = true;
  batch (D d) {
    k = k && d.file(0).size() > 1;
  }
}
----
Local code decides whether the call is made, and it runs only when the batch has come back.
Bind `d.file(0).size()` by a `val` in a statement before, and write its name here.
----
main {
  var k = true;
  batch (D d) {
    val size = d.file(0).size();
    k = k && size > 1;
  }
}
====
a program behind interfaces
----
main {
  var count = 0;
  batch (D d) {
    for (f in d.files()) {
      count = count + 1;
      if (count < 3) { f.grow(1); }
    }
  }
}
----
Local code decides whether the call is made, and it runs only when the batch has come back.
Keep in a List what this batch gives; then begin a batch for each item, in a `while` after it.
----
main {
  var count = 0;
  var chosen = List<Int>();
  batch (D d) {
    for (f in d.files()) {
      if (count < 2) { chosen = chosen + List<Int>(count); }
      count = count + 1;
    }
  }
  var i = 0;
  while (i < len(chosen)) {
    val number = chosen[i];
    batch (D d) { d.file(number).grow(1); }
    i = i + 1;
  }
}
====
a program behind interfaces
----
main {
  var n = 1;
  batch (D d) {
    if (d.file(0).size() > 1) {
      n = 2;
      if (n > 1) { d.burn(1); }
    }
  }
}
----
Local code decides whether the call is made, and it runs only when the batch has come back.
Let a `var` from before the batch keep what is decided, and begin a second batch after it, in an `if` on that `var`.
----
main {
  var n = 1;
  var burns = false;
  batch (D d) {
    if (d.file(0).size() > 1) {
      n = 2;
      burns = n > 1;
    }
  }
  if (burns) { batch (D d) { d.burn(1); } }
}
====
a program behind interfaces
----
main {
  batch (D d) { print(d.file(0)); }
}
----
A remote object, or rows, can't be used here: they stay at the server.
Write what a method of it gives, as by `.name()`.
----
main {
  batch (D d) { print(d.file(0).name()); }
}
====
a program behind interfaces
----
main {
  batch (D d) { print(d.files()); }
}
----
A remote object, or rows, can't be used here: they stay at the server.
Go over the rows by `for`, and use what a method of each row gives.
----
main {
  batch (D d) { for (f in d.files()) { print(f.name()); } }
}
====
a program behind interfaces
----
main {
  batch (D d) { batch (D e) { e.burn(1); } }
}
----
A batch can't stand in a batch.
Take this `batch (..)` and its braces away, and write `d` in place of `e`.
----
main {
  batch (D d) { d.burn(1); }
}
====
a program behind interfaces
----
interface E { fun ask(): Int; }
main {
  batch (D d) {
    d.burn(1);
    batch (E e) { print(e.ask()); }
  }
}
----
A batch can't stand in a batch.
End the batch of line 3 before this one begins.
----
interface E { fun ask(): Int; }
main {
  batch (D d) {
    d.burn(1);
  }
  batch (E e) { print(e.ask()); }
}
====
a program behind interfaces
----
class C { remote fun go() { batch (D d) { d.burn(1); } } }
main {
  val c = new C();
  batch (D d) {
    d.burn(2);
    c.go();
  }
}
----
`go` is a `remote fun`, and can't be called in a batch.
Call it before the batch or after it.
----
class C { remote fun go() { batch (D d) { d.burn(1); } } }
main {
  val c = new C();
  batch (D d) {
    d.burn(2);
  }
  c.go();
}
====
a program behind interfaces
----
main {
  batch (D d) {
    try { d.burn(1); } catch (e) { print(e); }
  }
}
----
This is performed at the server, and can't stand in a `try` of the batch.
Put the whole batch of line 2 into the `try`.
----
main {
  try {
    batch (D d) { d.burn(1); }
  } catch (e) { print(e); }
}
====
a program behind interfaces
----
main {
  batch (D d) { var f = d.file(0); f.grow(1); }
}
----
`f` would hold a remote object or rows, and a `var` can't.
Write `val f` in place of `var f`.
----
main {
  batch (D d) { val f = d.file(0); f.grow(1); }
}
====
a program behind interfaces
----
main {
  batch (D d) { var f = d.file(0); f.grow(1); f = d.file(1); f.grow(2); }
}
----
`f` would hold a remote object or rows, and a `var` can't.
Bind each object by a `val` of a name of its own, and assign none of them.
----
main {
  batch (D d) { val f = d.file(0); f.grow(1); val g = d.file(1); g.grow(2); }
}"#;
