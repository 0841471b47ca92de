// Programs that aren't typed.

/// Names that aren't known or are taken; calls, assignments, types and statements that can't stand where they do; and
/// types that are found where others are wanted.
pub static ROWS: &str = r#"UnknownName at y)
----
main { print(y); }
----
1 | main { print(y); }
  |              ^
`y` isn't declared here.
Declare it before, in this block or in one around it, by `val y = ..;` or `var y = ..;`.
====
UnknownName at b)
----
class A { a: Int; } main { print(new A(1).b); }
----
1 | class A { a: Int; } main { print(new A(1).b); }
  |                                           ^
What stands before the dot has no field `b`.
Declare `b` in its class, or read a field that is declared there.
====
UnknownName at m (
----
class A { } main { print(new A().m ()); }
----
1 | class A { } main { print(new A().m ()); }
  |                                  ^
What stands before the dot has no method `m`.
Declare `fun m` in its class or interface, or call a method that is declared there.
====
UnknownName at this
----
main { print(this); }
----
1 | main { print(this); }
  |              ^
`this` is known in methods alone.
Name the object by a variable.
====
UnknownName at new
----
main { val a = new A(); }
----
1 | main { val a = new A(); }
  |                ^
There is no class `A`.
Declare it by `class A { .. }`, or write the name of a class that is declared.
====
UnknownName at batch
----
main { batch (Dir r) { } }
----
1 | main { batch (Dir r) { } }
  |        ^
There is no interface `Dir`.
Declare it by `interface Dir { .. }`, or write the name of an interface that is declared.
====
UnknownName at B;
----
class A { b: B; } main { }
----
1 | class A { b: B; } main { }
  |              ^
There is no class or interface `B`.
Declare it, or write the name of one that is declared.
====
NameTaken at var s
----
main {
  val s = 1;
  print(s);
  var s = 2;
}
----
4 |   var s = 2;
  |   ^
`s` is taken: it is declared in line 2 already.
Choose another name.
====
NameTaken at for
----
class A {
  fun m(a: Int) {
    for (a in List<Int>()) { }
  }
}
main { }
----
3 |     for (a in List<Int>()) { }
  |     ^
`a` is taken: it is declared in line 2 already.
Choose another name.
====
NameTaken at batch
----
interface D { }
main {
  val r = 1;
  // r
  batch (D r) { }
}
----
5 |   batch (D r) { }
  |   ^
`r` is taken: it is declared in line 3 already.
Choose another name.
====
NameTaken at try
----
main {
  val e = "e";
  try { if (true) { } } catch (e) { }
}
----
3 |   try { if (true) { } } catch (e) { }
  |   ^
`e` is taken: it is declared in line 2 already.
Choose another name.
====
NameTaken at A { } m
----
interface A { }
class A { } main { }
----
2 | class A { } main { }
  |       ^
`A` is taken: it is declared in line 1 already.
Choose another name.
====
NameTaken at m(m
----
class A {
  fun m() { }
  fun m(m: Int) { }
}
main { }
----
3 |   fun m(m: Int) { }
  |       ^
`m` is taken: it is declared in line 2 already.
Choose another name.
====
NameTaken at a: T
----
class A {
  a: Int;
  a: Text;
}
main { }
----
3 |   a: Text;
  |   ^
`a` is taken: it is declared in line 2 already.
Choose another name.
====
NameTaken at val
----
main { val s = 1; }
----
1 | main { val s = 1; }
  |        ^
`s` is taken already.
Choose another name.
====
WrongCount at m(f
----
class A {
  fun m(a: Int) { }
}
main { new A().m(f(1, 2), 3); }
----
4 | main { new A().m(f(1, 2), 3); }
  |                ^
`m` takes another number of arguments than 2.
Write 1, one for each parameter of `fun m` in line 2.
====
WrongCount at m ()
----
class A { fun m(a: Int) { } } class B { fun m() { } } main { new A().m (); }
----
1 | class A { fun m(a: Int) { } } class B { fun m() { } } main { new A().m (); }
  |                                                                      ^
`m` takes another number of arguments than 0.
Write one for each parameter of the method.
====
WrongCount at new
----
class A { a: Int; }
main { val a = new A(); }
----
2 | main { val a = new A(); }
  |                ^
`new A` takes another number of values than 0.
Write 1, one for each field of `class A` in line 1, in their order.
====
WrongCount at new
----
class A { fun m(a: Int): Int { return a; } }
main { val a = new A(1); }
----
2 | main { val a = new A(1); }
  |                ^
`new A` takes another number of values than 1.
Write none, since `class A` in line 1 has no fields.
====
WrongCount at new A(1);
----
class A { a: Int; fun m(b: Int): Int { return b; } c: Int; fun n() { } }
main { new A(1).n(2); val a = new A(1); }
----
2 | main { new A(1).n(2); val a = new A(1); }
  |                               ^
`new A` takes another number of values than 1.
Write 2, one for each field of `class A` in line 1, in their order.
====
WrongCount at n(2)
----
class A { a: Int; fun m(b: Int): Int { return b; } c: Int; fun n() { } }
main { new A(1).n(2); val a = new A(1); }
----
2 | main { new A(1).n(2); val a = new A(1); }
  |                 ^
`n` takes another number of arguments than 1.
Write none, since `fun n` in line 1 has no parameters.
====
WrongCount at new
----
main { val a = new A(1); }
----
1 | main { val a = new A(1); }
  |                ^
`new A` takes another number of values than 1.
Write one for each field of the class, in their order.
====
NotAssignable at = 2
----
main { val s = 1; s = 2; }
----
1 | main { val s = 1; s = 2; }
  |                     ^
`s` can't be assigned, since it is a `val`.
Write `var s` in place of `val s` in line 1.
====
NotAssignable at = 2
----
main { a.m() = 2; }
----
1 | main { a.m() = 2; }
  |              ^
What stands left of this `=` can't be assigned.
Assign a `var`, or a field of an object.
====
MissingReturn at m()
----
class A { fun m(): Int { } } main { }
----
1 | class A { fun m(): Int { } } main { }
  |               ^
`m` promises a value and doesn't return one.
End its body by `return ..;`, or take the type behind the colon away.
====
TypeNotHere at List
----
interface D { fun m(a: List<Int>); } main { }
----
1 | interface D { fun m(a: List<Int>); } main { }
  |                        ^
A method of an interface can't take a List.
Let it take one item, and call it once for each.
====
TypeNotHere at D;
----
interface D { } class A { d: D; } main { }
----
1 | interface D { } class A { d: D; } main { }
  |                              ^
`D` is an interface, and its objects are known in a batch alone.
Take what its methods give, as an Int, a Bool or a Text.
====
TypeNotHere at Unit
----
main: Unit { }
----
1 | main: Unit { }
  |       ^
`main` can't have this type here.
It gives Int, Bool, Text or nothing; a List in it is of these, classes and Lists.
====
NotAllowedHere at batch
----
class A { fun m() { batch (D r) { } } } main { }
----
1 | class A { fun m() { batch (D r) { } } } main { }
  |                     ^
A `batch` stands in `main` or in a `remote fun` alone.
Declare this method by `remote fun`.
====
NotAllowedHere at b ()
----
class A { remote fun b() { } fun m() { this.b (); } } main { }
----
1 | class A { remote fun b() { } fun m() { this.b (); } } main { }
  |                                             ^
`b` is a `remote fun`, and is called from `main` or a `remote fun` alone.
Declare the method that calls it by `remote fun`.
====
NotAllowedHere in a service at print
----
class A { fun m() { print(1); } }
----
1 | class A { fun m() { print(1); } }
  |                     ^
A service prints nothing.
Let the method give the value, and print it in the program.
====
NotAllowedHere in a service at batch
----
class A { fun m() { batch (D r) { } } }
----
1 | class A { fun m() { batch (D r) { } } }
  |                     ^
A service has no batches.
Let the program hold the batch.
====
NotAllowedHere in a service at m()
----
class A { remote fun m() { } }
----
1 | class A { remote fun m() { } }
  |                      ^
A method of a service can't be a `remote fun`.
Take the word `remote` away.
====
WrongType Int at n)
----
main { val n = 1; print("n" + n); }
----
1 | main { val n = 1; print("n" + n); }
  |                               ^
`n` is of type `Int`, and `+` wants a value of type `Text`, as its left operand is.
`str` makes a Text of it.
====
WrongType Bool at <
----
main { print("n" + (1 < 2)); }
----
1 | main { print("n" + (1 < 2)); }
  |                       ^
This is of type `Bool`, and `+` wants a value of type `Text`, as its left operand is.
`str` makes a Text of it.
====
WrongType Text at "yes
----
main { if ("yes") { } }
----
1 | main { if ("yes") { } }
  |            ^
This is of type `Text`, and `if` wants a Bool.
Compare it by `==` or `!=`.
====
WrongType Unit at m());
----
class A { fun m() { } } main { print(new A().m()); }
----
1 | class A { fun m() { } } main { print(new A().m()); }
  |                                              ^
`m` gives no value, and `print` wants an Int, a Bool, a Text, Rows or an object of an interface.
Let the method give one, or write the call as a statement of its own.
====
WrongType A at new
----
class A { } main { print(new A()); }
----
1 | class A { } main { print(new A()); }
  |                          ^
This is of type `A`, and `print` wants an Int, a Bool, a Text, Rows or an object of an interface.
Take a field of it, or call a method that gives what is wanted.
====
WrongType List<Int> at a);
----
main { val a = List<Int>(1); print(a); }
----
1 | main { val a = List<Int>(1); print(a); }
  |                                    ^
`a` is of type `List<Int>`, and `print` wants an Int, a Bool, a Text, Rows or an object of an interface.
Take an item of it by `[..]`, the number of its items by `len`, or go over it by `for`.
====
WrongType Rows<Text> at names
----
main { batch (D r) { print(len(r.names())); } }
----
1 | main { batch (D r) { print(len(r.names())); } }
  |                                  ^
`names` gives a value of type `Rows<Text>`, and `len` wants a Text or a List.
Go over the rows by `for`, within the batch."#;
