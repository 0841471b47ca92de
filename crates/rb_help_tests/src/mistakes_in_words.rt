// Words, signs and comments of other languages, and marks of the order of bytes.

/// Texts with a mistake, what is said of each, and each mended as that says; and texts that begin with such a mark.
pub static ROWS: &str = r#"a program
----
main {
  let x = 1;
  print(x);
}
----
`let` declares nothing in this language.
Write `val`, or `var` for a variable that is assigned again.
----
main {
  val x = 1;
  print(x);
}
====
a program
----
main { var n = 1; n += 2; print(n); }
----
There is no `+=`.
Write `n = n + ..`.
----
main { var n = 1; n = n + 2; print(n); }
====
a program
----
main { var n = 1; n++; }
----
There is no `++`.
Write `n = n + 1`.
----
main { var n = 1; n = n + 1; }
====
a program
----
main { var n = 1; n--; }
----
There is no `--`.
Write `n = n - 1`.
----
main { var n = 1; n = n - 1; }
====
a program
----
main { val a = 1; print(a === 1); }
----
There is no `===`.
Write `==`.
----
main { val a = 1; print(a == 1); }
====
a program
----
main { val a = true; if (a and a) { print(1); } }
----
`and` joins nothing.
Write `&&`.
----
main { val a = true; if (a && a) { print(1); } }
====
a program
----
main { val a = true; if (not a) { print(1); } }
----
`not` negates nothing.
Write `!`.
----
main { val a = true; if (!a) { print(1); } }
====
a program
----
main { val a = true; if (a & a) { print(1); } }
----
A single `&` means nothing here.
Write `&&`.
----
main { val a = true; if (a && a) { print(1); } }
====
a program
----
class C { fun f() -> Int { return 1; } } main { }
----
There is no `->`.
Write `:` before the type of a result, and `.` before a member.
----
class C { fun f(): Int { return 1; } } main { }
====
a program
----
# the first program
main { print(1); }
----
`#` begins no comment.
Write `//` in its place; a comment goes on to the end of its line.
----
// the first program
main { print(1); }
====
a program
----
main {
  -- prints it
  print(1);
}
----
`--` begins no comment.
Write `//` in its place; a comment goes on to the end of its line.
----
main {
  // prints it
  print(1);
}
====
a program
----
/* the first
   program */
main { print(1); }
----
`/*` begins no comment.
Begin each line of the comment by `//`.
----
// the first
// program
main { print(1); }
====
a program
----
main { println("a"); }
----
`println` isn't known here.
Write `print(..)`, which prints one value on a line of its own.
----
main { print("a"); }
====
a program
----
main { print('a'); }
----
`'` begins nothing in this language.
Write a text in straight double quotes: "..".
----
main { print("a"); }
====
a program
----
main { val a = true ? 1 : 2; print(a); }
----
There is no `?` in this language.
Decide by `if`: `var x = 1; if (..) { x = 2; }`.
----
main { var a = 1; if (true) { a = 2; } print(a); }
====
a program
----
main { var n = 3; while (true) { n = n - 1; if (n == 0) { break; } } }
----
There is no `break`.
Let the condition of a `while` end the loop, and put what is left out into an `if`.
----
main { var n = 3; while (n > 0) { n = n - 1; } }
====
a program
----
class C { t: Text; } main { val c = new C(null); print(c.t); }
----
There is no `null`: each variable has a value.
Write a value of the type that is wanted, as 0, "" or an empty List; or keep a Bool beside it.
----
class C { t: Text; } main { val c = new C(""); print(c.t); }
====
a program
----
import x;
main { }
----
There is no `import`: a program is one text.
Take the line away, and declare what is used in this text.
----
main { }
====
a program
----
main { print(1.5); }
----
Numbers are whole.
Write an Int, as of hundredths: `150` for 1.50.
----
main { print(150); }
====
a program
----
main { print(0x10); }
----
A number has digits alone, and no name begins with one.
Write a number as digits, or begin the name by a letter or `_`.
----
main { print(16); }
====
a program
----
main { print("a\tb"); }
----
In a text literal a backslash stands only in `\n`, `\"` and `\\`.
Write `\\` where the text is to have a backslash.
----
main { print("a\\tb"); }
====
a program
----
main { print("a); }
----
This text literal isn't closed on its line.
Close it by `"`; a line feed in it is written `\n`.
----
main { print("a"); }
====
BadByte at byte 0
----
(EF BB BF main { })
----
The file begins with a byte order mark, the bytes EF BB BF.
Save it without one: as UTF-8, and not as UTF-8 with BOM.
====
BadByte in a service at byte 0
----
(EF BB BF root 0;)
----
The file begins with a byte order mark, the bytes EF BB BF.
Save it without one: as UTF-8, and not as UTF-8 with BOM.
====
BadByte at byte 0
----
(FF FE m 0)
----
The file begins with a byte order mark of UTF-16.
Save it as UTF-8, without a byte order mark."#;
