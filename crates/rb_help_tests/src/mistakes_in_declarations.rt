// Declarations and expressions in other forms.

/// Texts with a mistake, what is said of each, and each mended as that says.
pub static ROWS: &str = r#"a program
----
fun main() { print(1); }
----
`main` is no method.
Write `main { .. }`, without `fun` and without parentheses.
----
main { print(1); }
====
a program
----
main() { print(1); }
----
`main` takes nothing.
Write `main { .. }`, or with a result `main: Int { .. }`.
----
main { print(1); }
====
a program
----
fun f() { print(1); }
main { }
----
A method stands in a class.
Put it into one: `class Tools { fun f() { .. } }`, and call it by `new Tools().f()`.
----
class Tools { fun f() { print(1); } }
main { new Tools().f(); }
====
a program
----
val a = 1;
main { print(a); }
----
A statement stands in `main` or in a method.
Put it into `main { .. }`.
----
main { val a = 1; print(a); }
====
a program
----
main { }
class C { }
----
Nothing stands after `main`.
Move this before it: interfaces first, then classes, then `main`.
----
class C { }
main { }
====
a program
----
class C { }
interface E { }
main { }
----
Interfaces stand before classes.
Move this one before the first class.
----
interface E { }
class C { }
main { }
====
a program
----
class C { }
----
The text ends here, and `main` is missing.
End the program by `main { .. }`.
----
class C { } main { }
====
a program
----
class C { fun f() { } v: Int; } main { }
----
The fields of a class stand before its methods.
Move `v` before the first `fun`.
----
class C { v: Int; fun f() { } } main { }
====
a program
----
class C { fun f(): Int; } main { }
----
A method of a class has a body.
Write `{ .. }` in place of `;`.
----
class C { fun f(): Int { return 1; } } main { }
====
a program
----
interface E { fun f(): Int { return 1; } } main { }
----
A method of an interface has no body.
Write `;` in place of `{ .. }`.
----
interface E { fun f(): Int; } main { }
====
a program
----
class C { Int f() { return 1; } } main { }
----
The type stands after the name.
Write a field as `x: Int;`, and a method as `fun f(): Int { .. }`.
----
class C { fun f(): Int { return 1; } } main { }
====
a program
----
class C { fun f(Int a) { } } main { }
----
The type of a parameter stands after its name.
Write `a: Int`.
----
class C { fun f(a: Int) { } } main { }
====
a program
----
class C { fun f(a Int) { } } main { }
----
`:` is missing before `Int`.
Write `:` after `a`.
----
class C { fun f(a: Int) { } } main { }
====
a program
----
class C { val a: Int; } main { }
----
A field is declared without `val`.
Write its name and its type: `a: Int;`.
----
class C { a: Int; } main { }
====
a program
----
class A { x: Int; } class B extends A { } main { }
----
There is no `extends`: classes don't inherit.
Take it away, and write the fields and methods into the class itself.
----
class A { x: Int; } class B { x: Int; } main { }
====
a program
----
class C { fun remote f() { } } main { }
----
`remote` stands before `fun`.
Write `remote fun`.
----
class C { remote fun f() { } } main { }
====
a program
----
main { val len = 1; print(len); }
----
A name is wanted here, and `len` is a word of the language.
Choose another name.
----
main { val length = 1; print(length); }
====
a program behind interfaces
----
main { batch (D root) { root.burn(1); } }
----
A name is wanted here, and `root` is a word of the language.
Choose another name.
----
main { batch (D dir) { dir.burn(1); } }
====
a program
----
main { val a = [1, 2]; print(len(a)); }
----
A List isn't written in brackets.
Write `List<Int>(1, 2)`, with the type of its items.
----
main { val a = List<Int>(1, 2); print(len(a)); }
====
a program
----
main { val a = List(1, 2); print(len(a)); }
----
A List is made with the type of its items.
Write `List<Int>(..)`, or another type in place of `Int`.
----
main { val a = List<Int>(1, 2); print(len(a)); }
====
a program
----
class C { } main { val c = new C; }
----
`new C` is followed by the values of the fields, in parentheses.
Write `new C(..)`, and `new C()` where the class has no fields.
----
class C { } main { val c = new C(); }
====
a program
----
class C { a: Int; } main { val c = C(1); print(c.a); }
----
An object of class `C` is made by `new`.
Write `new C(..)`.
----
class C { a: Int; } main { val c = new C(1); print(c.a); }
====
a program
----
class C { fun g(): Int { return 1; } fun f(): Int { return g(); } } main { }
----
A method is called on an object.
Write `this.g(..)` for the object itself.
----
class C { fun g(): Int { return 1; } fun f(): Int { return this.g(); } } main { }
====
a program
----
main { val a = List<Int>(1); print(a.len()); }
----
`len` is no method.
Write `len(a)`.
----
main { val a = List<Int>(1); print(len(a)); }
====
a program
----
main { var a = 1; var b = 2; a = b = 3; }
----
A statement has one `=`.
Write a statement for each variable.
----
main { var a = 1; var b = 2; b = 3; a = 3; }"#;
