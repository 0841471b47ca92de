// What statements, bodies, methods, classes and variables are said to want where another type is found.

/// What statements take, what is returned, what methods, fields and lists take, what is assigned; and where the text
/// doesn't tell what is wanted.
pub static ROWS: &str = r#"WrongType Int at n; }
----
main { val n = 1; throw n; }
----
`n` is of type `Int`, and `throw` wants a Text.
`str` makes a Text of it.
====
WrongType Int at 3
----
main { if (3) { } }
----
This is of type `Int`, and `if` wants a Bool.
Compare it, as by `> 0`.
====
WrongType Text at "on
----
main { while ("on") { } }
----
This is of type `Text`, and `while` wants a Bool.
Compare it by `==` or `!=`.
====
WrongType Int at 3
----
main { for (i in 3) { } }
----
This is of type `Int`, and `for` wants a List or Rows.
Count turns by a `while`.
====
WrongType Bool at true
----
main { for (i in (true)) { } }
----
`true` is of type `Bool`, and `for` wants a List or Rows.
A List is made by `List<T>(..)`, with the type of its items in place of `T`.
====
WrongType List<Int> at List
----
main { print(List<Int>(1, 2)); }
----
This is of type `List<Int>`, and `print` wants an Int, a Bool, a Text, Rows or an object of an interface.
Take an item of it by `[..]`, the number of its items by `len`, or go over it by `for`.
====
WrongType Unit at m())
----
class A { } class B { fun m() { } } main { if (new B().m()) { } }
----
`m` gives no value, and `if` wants a Bool.
Let the method give one, or write the call as a statement of its own.
====
WrongType List<Int> at a; }
----
class A {
  fun f(): Text { return ""; }
  fun g(a: List<Text>): Int { throw a[0]; return a; }
} main { }
----
`a` is of type `List<Int>`, and `fun g` in line 3 promises `Int`.
Take an item of it by `[..]`, the number of its items by `len`, or go over it by `for`.
====
WrongType Text at a; }
----
class A { fun f(a: Text): List< // of )
 List<Int> > { return a; } } main { }
----
`a` is of type `Text`, and `fun f` in line 1 promises `List<List<Int>>`.
A List is made by `List<T>(..)`, with the type of its items in place of `T`.
====
WrongType Int at -
----
class A { fun f(): Int { return 1; } }
main: Bool { return -(1); }
----
This is of type `Int`, and `main` in line 2 promises `Bool`.
Compare it, as by `> 0`.
====
WrongType Int at a; }
----
class A { fun f(a: Int) { return a; } } main: Int { return 1; }
----
`a` is of type `Int`, and `fun f` in line 1 returns nothing.
Take the `return` away, or write the type of the result behind the parameters.
====
WrongType Unit at f();
----
class A { fun f() { } fun g(): Unit { return this.f(); } } main { }
----
`f` gives no value, and `fun g` in line 1 returns nothing.
Write the call as a statement of its own.
====
WrongType Bool at <
----
class A { fun f(): Int { return 1; } }
main { return 1 < 2; }
----
This is of type `Bool`, and `main` in line 2 returns nothing.
Take the `return` away, or write the type of the result behind `main`.
====
WrongType A at new
----
class A { } main { return new A(); }
----
This is of type `A`, and `main` in line 1 returns nothing.
Take the `return` away: `main` gives an Int, a Bool, a Text or nothing.
====
WrongType Unit at f()
----
main { return this.f(); }
----
`f` gives no value, and `main` in line 1 returns nothing.
Write the call as a statement of its own.
====
WrongType Int at 2)
----
interface D {
  fun m(a: Int, b: Text): Int;
}
main { batch (D r) { r.m(1, 2); } }
----
This is of type `Int`, and the parameter `b` in line 2 is of type `Text`.
`str` makes a Text of it.
====
WrongType Int at n((4)
----
class B { fun m(a: Text,
 b: Int, c: Bool) { } fun n(a: Int, b: Int): Int { return a; } } main { val b = new B(); b.m("x, (", b.n(b.n(1, 2), 3), b.n((4), List<Int>(5, 6)[0])); }
----
`n` gives a value of type `Int`, and the parameter `c` in line 2 is of type `Bool`.
Compare it, as by `> 0`.
====
WrongType Text at "x"
----
class B { fun m(a: Text, b: Int) { } fun n(a: Int, b: Int): Int { return a; } } main { val b = new B(); b.m("", b.n("x", 3) + 4); }
----
This is of type `Text`, and the parameter `a` in line 1 is of type `Int`.
`len` gives the number of its bytes; nothing makes a number of its digits.
====
WrongType Bool at true
----
class C { fun m(a: Text, // a comment, (
 b: A) { } } class A { } main { new C().m("]", // [
 (true)); }
----
`true` is of type `Bool`, and the parameter `b` in line 2 is of type `A`.
Name such an object by a variable, or call a method that gives one.
====
WrongType Text at "a
----
class B { fun m(a: Int) { } }
class C { fun m(a: Bool) { } } main { new B().m("a"); }
----
This is of type `Text`, and the parameter `a` in line 1 is of type `Int`.
`len` gives the number of its bytes; nothing makes a number of its digits.
====
WrongType Int at 1
----
class B { fun m(a: Int) { } }
class C { b: B; fun m(a: Bool) { this.m(1); } } main { }
----
This is of type `Int`, and the parameter `a` in line 2 is of type `Bool`.
Compare it, as by `> 0`.
====
WrongType Int at 1
----
interface D { fun m(a: Int); }
interface E { fun m(a: Text): D; } main { batch (E r) { r.m(1); } }
----
This is of type `Int`, and the parameter `a` in line 2 is of type `Text`.
`str` makes a Text of it.
====
WrongType Text at "a
----
class B { fun m(a: Bool, b: Int) { } } class C { fun m(b: Text, c: Int) { } } main { q.m(1, "a"); }
----
This is of type `Text`, and every `fun m` takes a value of type `Int` here.
`len` gives the number of its bytes; nothing makes a number of its digits.
====
WrongType Text at ""
----
class A { fun m(): Int { return 1; } }
class B {
  n: Int; m: Int;
  l: List<Int>;
 fun m2(x: Int) { } }
main { val b = new B(1, 2, ""); }
----
This is of type `Text`, and the field `l` in line 4 is of type `List<Int>`.
A List is made by `List<T>(..)`, with the type of its items in place of `T`.
====
WrongType Int at +
----
class A { } class B { a: A; } main { val b = new B(1 + 2 * 3); }
----
This is of type `Int`, and the field `a` in line 1 is of type `A`.
Name such an object by a variable, or call a method that gives one.
====
WrongType Int at +
----
main { val a = List<Bool>(1 < 2, 3 + 4, true); }
----
This is of type `Int`, and the items of this list are of type `Bool`.
Compare it, as by `> 0`.
====
WrongType List<Int> at List<Int
----
main { val a = List<List<Text>>(List<Int>(1)); }
----
This is of type `List<Int>`, and the items of this list are of type `List<Text>`.
A List is made by `List<T>(..)`, with the type of its items in place of `T`.
====
WrongType Text at "one
----
class B { fun m(x: Text) { } }
main {
  var x = 1;
  x = "one";
}
----
This is of type `Text`, and `x`, declared in line 3, is of type `Int`.
`len` gives the number of its bytes; nothing makes a number of its digits.
====
WrongType Int at +
----
class B { a: Int;
 size: Text; fun m(size: Int) { this.size = (size + 1); } } main { }
----
This is of type `Int`, and the field `size` in line 2 is of type `Text`.
`str` makes a Text of it.
====
WrongType Bool at true
----
class B { n: Int; }
class C { n: Bool; } main { val b = new B(1); b.n = true; }
----
`true` is of type `Bool`, and the field `n` in line 1 is of type `Int`.
Decide by `if` which Int is meant.
====
WrongType Text at "a
----
class C { m: Text; }
class B { n: C; m: Int; fun f() { if (true) { this.m = "a"; } } } main { }
----
This is of type `Text`, and the field `m` in line 2 is of type `Int`.
`len` gives the number of its bytes; nothing makes a number of its digits.
====
WrongType Text at "a
----
class B { n: List<Int>; } class C { m: Int; n: List< Int>; } main { q.n = "a"; }
----
This is of type `Text`, and every field `n` is of type `List<Int>`.
A List is made by `List<T>(..)`, with the type of its items in place of `T`.
====
WrongType Text at "a
----
class B { n: List<Int>; } class C { n: List<Bool>; } main { q.n = "a"; }
----
This is of type `Text`, and the type of the field `n` is wanted here.
A Text is joined by `+`, compared by `==` and `!=` and measured by `len`; nothing makes a number of it.
====
WrongType Bool at true
----
class B { fun m(): Int { return 1; } } class C { fun m(): Text { return ""; } }
main { var x = q.m(); x = true; }
----
`true` is of type `Bool`, and the type of `x`, declared in line 2, is wanted here.
Where a Text is wanted, `str` makes one of it; where an Int is, decide by `if`.
====
WrongType Int at 1
----
main { x = 1; }
----
This is of type `Int`, and the type of `x` is wanted here.
Where a Text is wanted, `str` makes one of it; where a Bool is, compare it, as by `> 0`.
====
WrongType Text at "a
----
class B { fun m(a: Int) { } } class C { fun m(a: Bool) { } } main { q.m("a"); }
----
This is of type `Text`, and another type is wanted here.
A Text is joined by `+`, compared by `==` and `!=` and measured by `len`; nothing makes a number of it.
====
WrongType Int at 1
----
main { r.m(1); }
----
This is of type `Int`, and another type is wanted here.
Where a Text is wanted, `str` makes one of it; where a Bool is, compare it, as by `> 0`.
====
WrongType Bool at true
----
class B { fun m(a: Int): Int { return a; } k: Int; } main { new B().m(1, true); }
----
`true` is of type `Bool`, and another type is wanted here.
Where a Text is wanted, `str` makes one of it; where an Int is, decide by `if`.
====
WrongType Unit at m();
----
class B { fun m() { } } main { val b = new B(); val c = b.m(); }
----
`m` gives no value, and one is wanted here.
Let the method give one, or write the call as a statement of its own.
====
WrongType Bool at true
----
main { var x = 1; (x) = true; }
----
`true` is of type `Bool`, and another type is wanted here.
Where a Text is wanted, `str` makes one of it; where an Int is, decide by `if`.
====
WrongType Int at 1
----
main { 1; }
----
This is of type `Int`, and another type is wanted here.
Where a Text is wanted, `str` makes one of it; where a Bool is, compare it, as by `> 0`."#;
