// Names and types that are wrong.

/// Texts with a mistake, what is said of each, and each mended as that says.
pub static ROWS: &str = r#"a program
----
class A { x: Int; fun f(): Int { return x; } } main { }
----
`x` is a field, and isn't known by its name alone.
Write `this.x`.
----
class A { x: Int; fun f(): Int { return this.x; } } main { }
====
a program
----
main {
  if (true) { val a = 1; }
  print(a);
}
----
`a`, declared in line 2, isn't known after the block in which it is declared.
Declare it by `var a = ..;` before that block, and assign it there.
----
main {
  var a = 0;
  if (true) { a = 1; }
  print(a);
}
====
a program
----
main { x = 1; }
----
`x` is assigned, and isn't declared.
Write `var x = ..;` where it gets its first value.
----
main { var x = 1; }
====
a program
----
class A { x: String; } main { }
----
There is no type `String`.
Write `Text` in its place.
----
class A { x: Text; } main { }
====
a program
----
main { val a = 1; a = 2; }
----
`a` can't be assigned, since it is a `val`.
Write `var a` in place of `val a` in line 1.
----
main { var a = 1; a = 2; }
====
a program
----
class A { fun f(a: Int) { a = 2; } } main { }
----
`a` can't be assigned, since it isn't a `var`.
Copy its value into a `var` of another name, and assign that.
----
class A { fun f(a: Int) { var b = a; b = 2; } } main { }
====
a program
----
class Box { v: Int; } main { val a = List<Box>(new Box(1)); a[0] = new Box(2); }
----
The items of a List don't change.
Make a new List in a `var`; or let the items be objects of a class, and assign a field: `a[0].v = ..;`.
----
class Box { v: Int; } main { val a = List<Box>(new Box(1)); a[0].v = 2; }
====
a program
----
main { print("a" + 1); }
----
This is of type `Int`, and `+` wants a value of type `Text`, as its left operand is.
`str` makes a Text of it.
----
main { print("a" + str(1)); }
====
a program
----
main { val n = 1; if (n) { print(n); } }
----
`n` is of type `Int`, and `if` wants a Bool.
Compare it, as by `> 0`.
----
main { val n = 1; if (n > 0) { print(n); } }
====
a program
----
main { val s = "abc"; print(s.length()); }
----
`s` is of type `Text`, and an object of a class or an interface is wanted before `.length`.
Write `len(s)`.
----
main { val s = "abc"; print(len(s)); }
====
a program
----
interface E { fun f(): List<Int>; } main { batch (E e) { for (x in e.f()) { print(x); } } }
----
A method of an interface can't give a List.
Write `Rows` in place of `List`, and go over the rows by `for`, within the batch.
----
interface E { fun f(): Rows<Int>; } main { batch (E e) { for (x in e.f()) { print(x); } } }
====
a program
----
main { return 1; }
----
This is of type `Int`, and `main` in line 1 returns nothing.
Take the `return` away, or write the type of the result behind `main`.
----
main: Int { return 1; }
====
a program
----
class C { fun f(): Int { print(1); } } main { }
----
`f` promises a value and doesn't return one.
End its body by `return ..;`, or take the type behind the colon away.
----
class C { fun f() { print(1); } } main { }
====
a program
----
class C { a: Int; b: Int; } main { val c = new C(1); }
----
`new C` takes another number of values than 1.
Write 2, one for each field of `class C` in line 1, in their order.
----
class C { a: Int; b: Int; } main { val c = new C(1, 2); }
====
a program
----
main { val a = 1; val a = 2; }
----
`a` is taken: it is declared in line 1 already.
Choose another name.
----
main { val a = 1; val b = 2; }
====
a program
----
main { print(List<Int>(1)); }
----
This is of type `List<Int>`, and `print` wants an Int, a Bool, a Text, Rows or an object of an interface.
Take an item of it by `[..]`, the number of its items by `len`, or go over it by `for`.
----
main { for (x in List<Int>(1)) { print(x); } }
====
a program
----
class C { } main { batch (C c) { } }
----
`C` is a class, and a batch is begun with the name of an interface.
Declare an interface, under another name, with the methods that the batch calls, and write that name here.
----
interface E { fun f(); } class C { } main { batch (E c) { } }
====
a program behind interfaces
----
main {
  batch (D r) { val n = r.file(0).size(); }
  print(n);
}
----
`n`, declared in line 2, isn't known after the block in which it is declared.
Declare it by `var n = ..;` before that block, and assign it there.
----
main {
  var n = 0;
  batch (D r) { n = r.file(0).size(); }
  print(n);
}
====
a program behind interfaces
----
main { batch (D r) { print(r.file(0).name); } }
----
`file` gives a value of type `F`, and an object of a class is wanted before `.name`.
An object of an interface has methods alone: write `name()`.
----
main { batch (D r) { print(r.file(0).name()); } }
====
a program behind interfaces
----
class C { fun f() { batch (D r) { r.burn(1); } } } main { }
----
A `batch` stands in `main` or in a `remote fun` alone.
Declare this method by `remote fun`.
----
class C { remote fun f() { batch (D r) { r.burn(1); } } } main { }"#;
