// What operators and members are said to want where another type is found.

/// One operand of each kind of operator; operands with several operators around them, of which the tighter one counts; what
/// stands before a dot; and left operands that tell the type of the right one, or don't.
pub static ROWS: &str = r#"WrongType Int at 1
----
main { print(true && 1); }
----
This is of type `Int`, and `&&` wants a Bool.
Compare it, as by `> 0`.
====
WrongType Text at "a
----
main { print("a" || true); }
----
This is of type `Text`, and `||` wants a Bool.
Compare it by `==` or `!=`.
====
WrongType Int at 5
----
main { print(! 5); }
----
This is of type `Int`, and `!` wants a Bool.
Compare it, as by `> 0`.
====
WrongType Bool at true
----
main { print(2 - true); }
----
`true` is of type `Bool`, and `-` wants an Int.
Decide by `if` which Int is meant.
====
WrongType Text at "1
----
main { print(-"1"); }
----
This is of type `Text`, and `-` wants an Int.
`len` gives the number of its bytes; nothing makes a number of its digits.
====
WrongType Text at "a
----
main { print("a" >= 1); }
----
This is of type `Text`, and `>=` wants an Int.
`len` gives the number of its bytes; nothing makes a number of its digits.
====
WrongType Bool at true
----
main { print(true + 1); }
----
`true` is of type `Bool`, and `+` wants an Int, a Text or a List.
`str` makes a Text of it.
====
WrongType Text at "b
----
main { print(1 + "b"); }
----
This is of type `Text`, and `+` wants a value of type `Int`, as its left operand is.
`str` makes a Text of the left operand.
====
WrongType List<Int> at List
----
main { print(List<Int>() != List<Int>()); }
----
This is of type `List<Int>`, and `!=` wants an Int, a Bool or a Text.
Take an item of it by `[..]`, the number of its items by `len`, or go over it by `for`.
====
WrongType Int at len
----
main { print("1" == len("a")); }
----
`len` gives a value of type `Int`, and `==` wants a value of type `Text`, as its left operand is.
`str` makes a Text of it.
====
WrongType Int at 5
----
main { print(len(5)); }
----
This is of type `Int`, and `len` wants a Text or a List.
`str` makes a Text of it.
====
WrongType Text at "a
----
main { print(str("a")); }
----
This is of type `Text`, and `str` wants an Int or a Bool.
It is a Text already: take `str` away.
====
WrongType Text at "abc
----
main { print("abc"[0]); }
----
This is of type `Text`, and a List is wanted before `[`.
A Text is joined by `+`, compared by `==` and `!=` and measured by `len`; nothing makes a number of it.
====
WrongType List<Int> at a]
----
main { val a = List<Int>(1); print(a[a]); }
----
`a` is of type `List<Int>`, and `[..]` wants an Int.
Take an item of it by `[..]`, the number of its items by `len`, or go over it by `for`.
====
WrongType Int at *
----
main { print("a" + 2 * 3 - 4); }
----
This is of type `Int`, and `+` wants a value of type `Text`, as its left operand is.
`str` makes a Text of it.
====
WrongType Text at +
----
main { print("a" + "b" - 4); }
----
This is of type `Text`, and `-` wants an Int.
`len` gives the number of its bytes; nothing makes a number of its digits.
====
WrongType Text at "a
----
main { print(1 * "a" * 2); }
----
This is of type `Text`, and `*` wants an Int.
`len` gives the number of its bytes; nothing makes a number of its digits.
====
WrongType Int at +
----
main { val b = true || 1 + 2 * - - 3 && false; }
----
This is of type `Int`, and `&&` wants a Bool.
Compare it, as by `> 0`.
====
WrongType Int at 3
----
main { if (1 - -1 < 2 == 3) { } }
----
This is of type `Int`, and `==` wants a value of type `Bool`, as its left operand is.
Compare it, as by `> 0`.
====
WrongType Int at +
----
main { if (!(1 + 2) == true) { } }
----
This is of type `Int`, and `!` wants a Bool.
Compare it, as by `> 0`.
====
WrongType Bool at true
----
main { print(-(true) * 2); }
----
`true` is of type `Bool`, and `-` wants an Int.
Decide by `if` which Int is meant.
====
WrongType Bool at [0])); }
----
main { val a = List<Int>(1); print(5 > (List<Bool>(true, 2 >= (a[0]))[0])); }
----
This is of type `Bool`, and `>` wants an Int.
Decide by `if` which Int is meant.
====
WrongType Bool at [1]
----
main { print(List<List<Bool>>(List<Bool>(true))[0][1] % 2); }
----
This is of type `Bool`, and `%` wants an Int.
Decide by `if` which Int is meant.
====
WrongType A at m(len
----
class B { fun m(a: Int): B { return this; } } main { print(((1)) / (new B().m(2).m(len((")"))))); }
----
`m` gives a value of type `A`, and `/` wants an Int.
Take a field of it, or call a method that gives what is wanted.
====
WrongType Int at n.
----
main { val n = 1; print(n.size); }
----
`n` is of type `Int`, and an object of a class is wanted before `.size`.
Take the member away: only objects have fields and methods; `str` makes a Text of this.
====
WrongType A at a.
----
interface A { } main { batch (A a) { print(- a.size); } }
----
`a` is of type `A`, and an object of a class is wanted before `.size`.
An object of an interface has methods alone: call one of them.
====
WrongType Rows<Int> at all
----
main { batch (A r) { r.all().first(1); } }
----
`all` gives a value of type `Rows<Int>`, and an object of a class or an interface is wanted before `.first`.
Go over the rows by `for`, within the batch.
====
WrongType Bool at <
----
main { (1 < 2) . m () ; }
----
This is of type `Bool`, and an object of a class or an interface is wanted before `.m`.
Take the member away: only objects have fields and methods; `str` makes a Text of this.
====
WrongType Int at 77
----
main { print("a" + "b" + 77); }
....
main { print(str(1) + str(2 * 3) + 77); }
....
main { val t = ("a" + str(1)); val u = t; print(u + 77); }
....
class C { fun f(a: Int, t: Text): Text { return t + 77; } } main { }
....
main { val l = List<Text>("a"); for (x in l) { print(x + 77); } }
....
main { val l = List<List<Text>>(); print(l[1][2] + 77); }
....
class C { fun f(): Text { return ""; } } main { print(new C().f() + 77); }
....
class C { t: Text; } class D { t: Text; } main { print(q.t + 77); }
....
main { try { } catch (x) { print(x + 77); } }
....
interface D { fun t(): Rows<Text>; } main { batch (D r) { for (x in r.t()) { print(x + 77); } } }
....
main { if (true) { val t = 1; } if (true) { val t = ""; print(1 < 2 && t + 77); } }
....
class C { t: Text; fun f(t: Int) { print(this.t + 77); } } main { }
----
This is of type `Int`, and `+` wants a value of type `Text`, as its left operand is.
`str` makes a Text of it.
====
WrongType Text at "a
----
main { print(1 + 2 == "a"); }
....
main { print(-len("") == "a"); }
....
main { print(1 - q.n() == "a"); }
....
main { print(q.n() % 2 == "a"); }
....
main { var n = 5; while (n == "a") { } }
....
class C { n: Int; fun n(): Text { return ""; } } main { print(new C(1).n == "a"); }
....
main { for (n in List<Int>(1, 2)) { print((n) == "a"); } }
....
main { print(true || - -1 == "a"); }
----
This is of type `Text`, and `==` wants a value of type `Int`, as its left operand is.
`str` makes a Text of the left operand.
====
WrongType Int at 77
----
main { print(true != 77); }
....
main { print(1 < 2 != 77); }
....
main { print(1 != 2 != 77); }
....
main { print(!q.n() != 77); }
....
main { val b = 1 > 2 || q.n(); print(b != 77); }
....
main { print((1 == 2 && q.n()) != 77); }
----
This is of type `Int`, and `!=` wants a value of type `Bool`, as its left operand is.
Compare it, as by `> 0`.
====
WrongType Int at 77
----
main { print(List<Bool>(true) + 77); }
....
main { val l = List<List<Bool>>(); for (x in l) { print(x + List<Bool>() + 77); } }
----
This is of type `Int`, and `+` wants a value of type `List<Bool>`, as its left operand is.
A List is made by `List<T>(..)`, with the type of its items in place of `T`.
====
WrongType Int at 77
----
main { print(q + 77); }
....
class C { fun n(): Int { return 1; } } class D { fun n(): Text { return ""; } } main { print(q.n() + 77); }
....
class C { t: Int; } class D { t: Text; } main { print(q.t + 77); }
....
main { val t = q; print(t + 77); }
....
main { val t = t; print(t + 77); }
----
This is of type `Int`, and `+` wants the type of its left operand here.
If the left operand is a Text, `str` makes one of this.
====
WrongType Text at "a
----
main { print(q != "a"); }
----
This is of type `Text`, and `!=` wants the type of its left operand here.
If the left operand is an Int or a Bool, `str` makes a Text of that."#;
