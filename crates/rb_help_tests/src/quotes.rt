// Quoted lines with carets under places, and the first sentences on replies.

/// Tabs, wide characters, what can't be seen, ends of lines and texts, long lines; and each flaw of a reply.
pub static ROWS: &str = "NotUtf8 at byte 15
----
main {
\tprint(\tx);
}
----
a.rbi:2:9:
2 | \tprint(\tx);
  | \t      \t^
====
NotUtf8 at byte 18
----
print(\"日本e\u{301}\" + x);
----
a.rbi:1:14:
1 | print(\"日本e\u{301}\" + x);
  |               ^
====
NotUtf8 at byte 9
----
(what cannot be seen)
----
a.rbi:1:9:
1 | a \u{fffd}\u{fffd} \u{fffd}\u{fffd} x
  |         ^
====
NotUtf8 at byte 11
----
a \u{202e}\u{9b}\u{2028} x
----
a.rbi:1:7:
1 | a \u{fffd}\u{fffd}\u{fffd} x
  |       ^
====
NotUtf8 at byte 10
----
main {\r
  x\r
}
----
a.rbi:2:3:
2 |   x\x20
  |   ^
====
NotUtf8 at byte 4294967295
----
main {
  x
----
a.rbi:2:4:
2 |   x
  |    ^
====
NotUtf8 at byte 7
----
main {

----
a.rbi:2:1:
2 |\x20
  | ^
====
NotUtf8 at byte 6
----
main {

----
a.rbi:1:7:
1 | main {
  |       ^
====
NotUtf8 at byte 5
----

----
a.rbi:1:1:
1 |\x20
  | ^
====
NotUtf8 at byte 2
----
a
b









----
a.rbi:2:1:
 2 | b
   | ^
====
NotUtf8 at byte 100
----
aaaaaaaaaaaaaaaaaaaaaaaaaaaaaaaaaaaaaaaaaaaaaaaaaaaaaaaaaaaaaaaaaaaaaaaaaaaaaaaaaaaaaaaaaaaaaaaaaaaaaaaaaaaaaaaaaaaaaaaaa
----
a.rbi:1:101:
1 | ...aaaaaaaaaaaaaaaaaaaaaaaaaaaaaaaaaaaaaaaaaaaaaaaaaaaaaaaaaaaaaaaaaaaaaaaaaaaaaaaaa
  |                                                                ^
====
NotUtf8 at byte 0
----
aaaaaaaaaaaaaaaaaaaaaaaaaaaaaaaaaaaaaaaaaaaaaaaaaaaaaaaaaaaaaaaaaaaaaaaaaaaaaaaaaaaaaaaaaaaaaaaaaaaaaaaaaaaaaaaaaaaaaaaaa
----
a.rbi:1:1:
1 | aaaaaaaaaaaaaaaaaaaaaaaaaaaaaaaaaaaaaaaaaaaaaaaaaaaaaaaaaaaa...
  | ^
====
NotUtf8 at byte 121
----
日日日日日日日日日日日日日日日日日日日日日日日日日日日日日日日日日日日日日日日日ax
----
a.rbi:1:42:
1 | ...日日日日日日日日日日日日日日日日日日日日ax
  |                                             ^
====
Cut(5)
----

----
In exchange 3 `here:9` ended the link at byte 5 of its reply.
====
Frame(2)
----

----
In exchange 3 `here:9` sent what is no reply, from byte 2 on.
====
Refused(12, 3)
----

----
In exchange 3 `here:9` refused the batch's script, with refusal 12 at 3.
====
Garbled
----

----
In exchange 3 `here:9` sent a refusal that can't be read.
====
Forest(1, 7)
----

----
In exchange 3 `here:9` sent results that end too early, at byte 7.
====
Forest(2, 7)
----

----
In exchange 3 `here:9` sent results with a byte that means nothing, at byte 7.
====
Forest(3, 7)
----

----
In exchange 3 `here:9` sent results with a Text that is too long or isn't UTF-8, at byte 7.
====
Forest(4, 7)
----

----
In exchange 3 `here:9` sent results with a Bool or a number that is spelled as none is, at byte 7.
====
Forest(5, 7)
----

----
In exchange 3 `here:9` sent results that are nested too deep, at byte 7.
====
Forest(6, 7)
----

----
In exchange 3 `here:9` sent results with more behind them, at byte 7.
====
Forest(7, 7)
----

----
In exchange 3 `here:9` sent results that can't be read, at byte 7.
====
Misfit(4)
----

----
In exchange 3 `here:9` sent results that lack what step 4 of the batch's script is to give.
====
Extra
----

----
In exchange 3 `here:9` sent more results than the batch's script is to give.";
