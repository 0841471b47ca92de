// Statements in other forms.

/// Texts with a mistake, what is said of each, and each mended as that says.
pub static ROWS: &str = r#"a program
----
main {
  val a = 1
  print(a);
}
----
`;` is missing after `val a = 1` in line 2.
Write `val a = 1;`.
----
main {
  val a = 1;
  print(a);
}
====
a program
----
main { print(1) }
----
`;` is missing after `print(1)`.
Write `print(1);`.
----
main { print(1); }
====
a program
----
main { print(len("abc"); }
----
`)` is missing after `print(len("abc")`.
Write `print(len("abc"))`.
----
main { print(len("abc")); }
====
a program
----
class C {
  fun f() {
    print(1);
}
main { }
----
`}` is missing before `main`.
Close the `{` of line 1 before it.
----
class C {
  fun f() {
    print(1);
}
}
main { }
====
a program
----
main {
  if (true) {
    print(1);
}
----
The text ends here, and the `{` in line 1 isn't closed.
Write a `}` at the end of its block, or of the block in it that lacks one.
----
main {
  if (true) {
    print(1);
}
}
====
a program
----
main
  print(1);
}
----
`{` is missing after `main` in line 1.
Write `main {`.
----
main {
  print(1);
}
====
a program
----
main { print(1)); }
----
`)` can't stand here.
Take it away.
----
main { print(1); }
====
a program
----
main { if (true) { print(1); }; print(2); }
----
`;` can't stand here.
Take it away.
----
main { if (true) { print(1); } print(2); }
====
a program
----
main { val a = 1; if (a == 1) { print(1); } else if (a == 2) { print(2); } }
----
There is no `else if`: what belongs to `else` stands in braces.
Write `else { if (..) { .. } }`.
----
main { val a = 1; if (a == 1) { print(1); } else { if (a == 2) { print(2); } } }
====
a program
----
main { val x = 1; if x > 0 { print(x); } }
----
What belongs to `if` stands in parentheses.
Write `if (..) { .. }`.
----
main { val x = 1; if (x > 0) { print(x); } }
====
a program
----
main { val x = 1; if (x > 0) print(x); }
----
The statements of `if` stand in braces, one alone too.
Write `{ .. }` around them.
----
main { val x = 1; if (x > 0) { print(x); } }
====
a program
----
main { val x = 1; if (x > 0) && (x < 3) { print(x); } }
----
The whole condition of `if` stands in one parenthesis.
Put a parenthesis around all of it: `if ((..) && (..)) { .. }`.
----
main { val x = 1; if ((x > 0) && (x < 3)) { print(x); } }
====
a program
----
main { var a = 1; if (a = 1) { print(a); } }
----
`=` assigns, and stands in no expression.
Compare by `==`.
----
main { var a = 1; if (a == 1) { print(a); } }
====
a program
----
main { val a = 1; print(0 < a < 3); }
----
The result of a comparison isn't compared by another `<`.
Join two comparisons by `&&`, as in `a < b && b < c`; or put one into parentheses.
----
main { val a = 1; print(0 < a && a < 3); }
====
a program
----
main { for (int i = 0; i < 3; i++) { print(i); } }
----
A `for` goes over a List or rows, and binds a name to each item.
Write `for (x in list) { .. }`; count by `var i = 0; while (i < 10) { .. i = i + 1; }`.
----
main { var i = 0; while (i < 3) { print(i); i = i + 1; } }
====
a program
----
main { for (x : List<Int>(1)) { print(x); } }
----
`:` can't stand here.
Write `in` in its place: `for (x in list) { .. }`.
----
main { for (x in List<Int>(1)) { print(x); } }
====
a program
----
main { for (val x in List<Int>(1)) { print(x); } }
----
The name that a `for` binds stands without `val`.
Take `val` away: `for (x in list) { .. }`.
----
main { for (x in List<Int>(1)) { print(x); } }
====
a program
----
main { try { print(1); } catch { print(2); } }
----
A `catch` has one name in its parentheses, which stands for a Text.
Write `catch (problem) { .. }`.
----
main { try { print(1); } catch (problem) { print(2); } }
====
a program
----
class C { fun f(a: Int): Int { if (a > 0) { return 1; } return 2; } } main { }
----
A `return` stands at the end of a body alone, and in no block.
Declare a `var` before the block, assign it here, and return it at the end of the body.
----
class C { fun f(a: Int): Int { var x = 2; if (a > 0) { x = 1; } return x; } } main { }
====
a program
----
class C { fun f() { return; } } main { }
----
A `return` gives a value.
Write `return ..;`; a body without a result has no `return`.
----
class C { fun f() { } } main { }
====
a program
----
main { val a: Int = 1; print(a); }
----
The type of a variable isn't written: it is that of its value.
Write `val a = ..;`.
----
main { val a = 1; print(a); }
====
a program
----
main { Int a = 1; print(a); }
----
The type of a variable isn't written: it is that of its value.
Write `val a = ..;`.
----
main { val a = 1; print(a); }
====
a program
----
main { var a; a = 1; }
----
`a` is declared without a value.
Give it one: `var a = ..;`.
----
main { var a = 0; a = 1; }
====
a program
----
main { print("a", 1); }
----
`print` takes one value.
Write one; texts are joined by `+`, and `str` makes a Text of an Int or a Bool.
----
main { print("a" + str(1)); }
====
a program
----
main { val x = 1 + ; print(x); }
----
An expression is missing before `;`.
Write it after `+`.
----
main { val x = 1 + 2; print(x); }
====
a program
----
main { print("a" "b"); }
----
An operator is missing before `"b"`.
Write it after `"a"`.
----
main { print("a" + "b"); }
====
a program behind interfaces
----
main { batch (r) { r.burn(1); } }
----
A `batch` has the name of an interface and then that of its root in its parentheses.
Write `batch (Directory directory) { .. }`, with an interface of this program.
----
main { batch (D r) { r.burn(1); } }
====
a program behind interfaces
----
main { batch (D r) { F f = r.file(0); print(f.size()); } }
----
The type of a variable isn't written: it is that of its value.
Write `val f = ..;`.
----
main { batch (D r) { val f = r.file(0); print(f.size()); } }"#;
