// Texts that are no services, and how each is mended.

/// Texts with a mistake, what is said of each, and each mended as that says.
pub static ROWS: &str = r#"a service
----
main { }
----
This is the text of a program, and a service is wanted.
Name the program's file first and the service's after it, as in `rbi both PROGRAM SERVICE`.
----
class A { } object 0: A { } root 0;
====
a service
----
class A { x: Int; }
object 0: A { x = 1; }
----
The text ends here, and the root is missing.
End the service by `root 0;`, with the number of the object at which batches begin.
----
class A { x: Int; }
object 0: A { x = 1; } root 0;
====
a service
----
class A { x: Int; }
object 0: A { x = 1; } root #0;
----
`#` can't stand here.
Take it away.
----
class A { x: Int; }
object 0: A { x = 1; } root 0;
====
a service
----
class A { x: Int; }
object 0: A { x: 1; } root 0;
----
`:` can't stand here.
Write `=` in its place.
----
class A { x: Int; }
object 0: A { x = 1; } root 0;
====
a service
----
class A { x: Int; }
object A { x = 1; } root 0;
----
An object has a number, the name of its class and the values of its fields.
Write `object 0: File { name = "notes"; size = 310; }`.
----
class A { x: Int; }
object 0: A { x = 1; } root 0;
====
a service
----
class A { x: Int; }
object 0: A { x = 1 + 2; } root 0;
----
A value in an object is written out, and isn't worked out.
Write a number, a text, `true`, `false`, an object as `#1`, or a list as `[1, 2]`.
----
class A { x: Int; }
object 0: A { x = 3; } root 0;
====
a service
----
object 0: A { x = 1; }
class A { x: Int; } root 0;
----
Classes stand before objects.
Move this one before the first object.
----
class A { x: Int; }
object 0: A { x = 1; } root 0;
====
a service
----
interface D { }
class A { }
object 0: A { } root 0;
----
A service has no interfaces.
Take this one away: a service has classes, objects and a root.
----
class A { }
object 0: A { } root 0;
====
a service
----
class A { x: Int; }
object 0: A { x = 1; }
object 1: A { x = 2; } root 3;
----
The root is object 3, and no object is written with that number.
Write the number of one after `root`, from 0 to 1.
----
class A { x: Int; }
object 0: A { x = 1; }
object 1: A { x = 2; } root 1;
====
a service
----
class A { x: Int; }
object 1: A { x = 1; } root 0;
----
Object 0 is due, and 1 is written.
Write `object 0` here; objects are numbered 0, 1, 2 and so on, in their order.
----
class A { x: Int; }
object 0: A { x = 1; } root 0;
====
a service
----
class A { x: Int; y: Text; }
object 0: A { x = 1; } root 0;
----
The class `A` has a field `y`, and this object doesn't give it.
Give it in the order of the class, as `y = ..;`.
----
class A { x: Int; y: Text; }
object 0: A { x = 1; y = "a"; } root 0;
====
a service
----
class A { x: Int; y: Text; }
object 0: A { y = "a"; x = 1; } root 0;
----
The field `x` of the class `A` is due here.
Give the fields in the order of the class, and `x` first of those that follow.
----
class A { x: Int; y: Text; }
object 0: A { x = 1; y = "a"; } root 0;
====
a service
----
class A { x: Int; }
object 0: A { x = 1; z = 2; } root 0;
----
The class `A` has no field `z`.
Take it away here, or declare it in the class.
----
class A { x: Int; }
object 0: A { x = 1; } root 0;
====
a service
----
class A { x: Int; y: Text; }
object 0: A { x = "1"; y = "a"; } root 0;
----
The field `x` is of type `Int`, and this value isn't.
Write a whole number, as `7` or `-7`.
----
class A { x: Int; y: Text; }
object 0: A { x = 1; y = "a"; } root 0;
====
a service
----
class A { x: List<Text>; }
object 0: A { x = ["a", 2]; } root 0;
----
The field `x` is of type `List<Text>`, and this value isn't.
Write a text in quotes: "..".
----
class A { x: List<Text>; }
object 0: A { x = ["a", "2"]; } root 0;
====
a service
----
class A { x: List<Int>; }
object 0: A { x = 1; } root 0;
----
The field `x` is of type `List<Int>`, and this value isn't.
Write a list in brackets, as `[..]`, with its items in it.
----
class A { x: List<Int>; }
object 0: A { x = [1]; } root 0;
====
a service
----
class A { x: B; }
class B { }
object 0: A { x = #0; }
object 1: B { } root 0;
----
The field `x` is of type `B`, and this value isn't.
Write `#` and the number of an object of class `B`.
----
class A { x: B; }
class B { }
object 0: A { x = #1; }
object 1: B { } root 0;
====
a service
----
class A { x: B; }
class B { }
object 0: A { x = #7; } root 0;
----
`#7` names an object that isn't there.
Write `object 1: ..` after the other objects, of the class that is wanted, and its number here; or name one that is there.
----
class A { x: B; }
class B { }
object 0: A { x = #1; }
object 1: B { } root 0;
====
a service
----
class A { x: Int; }
object 0: B { x = 1; } root 0;
----
There is no class `B`.
Declare it by `class B { .. }` before the objects, or write the name of a class that is declared.
----
class A { x: Int; }
object 0: A { x = 1; } root 0;
====
a service
----
class A { fun f() { batch (D d) { } } }
object 0: A { } root 0;
----
A service has no batches.
Let the program hold the batch.
----
class A { fun f() { } }
object 0: A { } root 0;
====
a service
----
class A { x: List<A>; fun f(): Rows<A> { return this.x; } }
object 0: A { x = []; } root 0;
----
There are no Rows in a service: they are what a program sees of a List.
Write `List` in place of `Rows`.
----
class A { x: List<A>; fun f(): List<A> { return this.x; } }
object 0: A { x = []; } root 0;
====
a service
----
class A { fun f() { print(1); } }
object 0: A { } root 0;
----
A service prints nothing.
Let the method give the value, and print it in the program.
----
class A { fun f(): Int { return 1; } }
object 0: A { } root 0;
====
a service
----
class A { remote fun f() { } }
object 0: A { } root 0;
----
A method of a service can't be a `remote fun`.
Take the word `remote` away.
----
class A { fun f() { } }
object 0: A { } root 0;"#;
