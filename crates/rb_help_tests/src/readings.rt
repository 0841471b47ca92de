// Texts that aren't read, and batches that are refused.

/// Bytes, literals and tokens, what is nested too deep, flows with their chains, and the limits of batches.
pub static ROWS: &str = r#"BadByte at $ 2
----
main { print(1 $ 2); }
----
1 | main { print(1 $ 2); }
  |                ^
`$` begins nothing in this language.
Take it out; other signs than the language's own stand in text literals and comments alone.
====
BadByte at & 2
----
main { print(1 & 2); }
----
1 | main { print(1 & 2); }
  |                ^
A single `&` means nothing here.
Write `&&`.
====
BadByte at | f
----
main { print(true | false); }
----
1 | main { print(true | false); }
  |                   ^
A single `|` means nothing here.
Write `||`.
====
BadByte at \d
----
main { print("a\d"); }
----
1 | main { print("a\d"); }
  |                ^
In a text literal a backslash stands only in `\n`, `\"` and `\\`.
Write `\\` where the text is to have a backslash.
====
OpenText at "a
----
main {
  print("a);
}

----
2 |   print("a);
  |         ^
This text literal isn't closed on its line.
Close it by `"`; a line feed in it is written `\n`.
====
NumberTooLarge at 922
----
main { print(9223372036854775808); }
----
1 | main { print(9223372036854775808); }
  |              ^
9223372036854775808 is no Int: the greatest is 9223372036854775807, and the least -9223372036854775808.
Write a number between them.
====
TooLong at "long
----
main { print("long"); }
----
1 | main { print("long"); }
  |              ^
This text literal has more than the 4096 bytes that a Text may have.
Shorten it, or print it in several pieces.
====
NotUtf8 at a"
----
main { print("a"); }
----
1 | main { print("a"); }
  |               ^
The text isn't UTF-8 from here on.
Save the file as UTF-8.
====
TooLong at byte 1048576
----
main { }
----
1 | main { }
  |         ^
The text goes on here, behind the 1048576 bytes that it may have.
Shorten it.
====
Unexpected at byte 19
----
main {
  print(1);

----
3 | 
  | ^
The text ends here, and the `{` in line 1 isn't closed.
Write a `}` at the end of its block, or of the block in it that lacks one.
====
Unexpected at 1 =
----
main { val 1 = 1; }
----
1 | main { val 1 = 1; }
  |            ^
A name is wanted here, and `1` is none.
Write a name: a letter or `_`, and then letters, digits and `_`.
====
Unexpected at else
----
main { else { } }
----
1 | main { else { } }
  |        ^
`else` can't stand here.
What can stand here is a statement, `return` or `}`.
====
TooNested at { }
----
main { { } }
----
1 | main { { } }
  |        ^
64 blocks are open before this one, and no more may be.
Move inner blocks into a method of their own.
====
TooNested at (1
----
main { print((1)); }
----
1 | main { print((1)); }
  |              ^
This is nested too deep: an expression has at most 200 operators, dots, brackets and parentheses, and a type or list at most 64 brackets within each other.
Give parts of it names of their own by `val`.
====
Flow at size, var, s);
----
main { batch (Dir r) {
  var s = r.file(0).size();
  s = s + 1;
  r.file(1).grow(s);
} }
----
2 |   var s = r.file(0).size();
  |                     ^ this call's result
  |   ^ flows into `s` here
4 |   r.file(1).grow(s);
  |                  ^ and is sent back here
A batch is sent before its results come back, so what local code puts into `s` can't go into it again.
Bind each value of `s` by a `val` with a name of its own, so that the server keeps it, and send the last.
====
Flow at size, set, get
----
main { val o = new Box(0); batch (Dir r) {
  o.set(r.file(0).size());
  r.file(1).grow(o.get());
} }
----
2 |   o.set(r.file(0).size());
  |                   ^ this call's result
  |     ^ flows into an object here
3 |   r.file(1).grow(o.get());
  |                    ^ and is sent back here
A batch is sent before its results come back, so what local code makes of a result can't go into it again.
End the batch before `r.file(1).grow(o.get())` in line 3, and begin a second one there.
Put `o.get()` into a `val` between the two, and send that.
====
Flow at all, for, = a, = b, val, try, e);
----
main { batch (D r) { for (a in r.all()) { b.f = a; c = b.f; val d = c; try { throw d; } catch (e) { r.put(e); } } } }
----
1 | main { batch (D r) { for (a in r.all()) { b.f = a; c = b.f; val d = c; try { throw d; } catch (e) { r.put(e); } } } }
  |                                  ^ this call's result
  |                      ^ flows into `a` here
  |                                               ^ flows into the field `f` here
  |                                                      ^ flows into `c` here
  |                                                             ^ flows into `d` here
  |                                                                        ^ flows into `e` here
  |                                                                                                           ^ and is sent back here
A batch is sent before its results come back, so what local code puts into `e` can't go into it again.
Keep in a List what this batch gives; then begin a batch for each item, in a `while` after it.
====
TooManyInputs at batch
----
main { batch (Dir r) { } }
----
1 | main { batch (Dir r) { } }
  |        ^
This batch sends 256 variables from outside, and 255 is the most.
Divide it into two batches.
====
ScriptTooLarge at batch
----
main { batch (Dir r) { } }
----
1 | main { batch (Dir r) { } }
  |        ^
What this batch sends would have 4194305 bytes, and 4194304 is the most.
Divide it into two batches.
====
UnderLocalCondition at byte 0
----
a b
----
1 | a b
  | ^ local code decides this
  |   ^ and this would wait for it
Local code decides whether the call is made, and it runs only when the batch has come back.
Let a `var` from before the batch keep what is decided, and begin a second batch after it, in an `if` on that `var`.
====
UnderLocalCondition at byte 0
----
aaaaaaaaaaaaaaaaaaaaaaaaaaaaaaaaaaaaaaaaaaaaaaaaaaaaaaaaaaaaaaaaaaaaaaaaaaaaaaaaaaaaaaaaaaaaaaaaaaaaaaaaaaaaaaaaaaaaaaaaa
----
1 | aaaaaaaaaaaaaaaaaaaaaaaaaaaaaaaaaaaaaaaaaaaaaaaaaaaaaaaaaaaa...
  | ^ local code decides this
1 | aaaaaaaaaaaaaaaaaaaaaaaaaaaaaaaaaaaaaaaaaaaaaaaaaaaaaaaaaaaaaa...
  |   ^ and this would wait for it
Local code decides whether the call is made, and it runs only when the batch has come back.
Let a `var` from before the batch keep what is decided, and begin a second batch after it, in an `if` on that `var`.
====
Flow
----
a b
----
A batch is sent before its results come back, so what local code makes of a result can't go into it again.
Keep in a List what this batch gives; then begin a batch for each item, in a `while` after it."#;
