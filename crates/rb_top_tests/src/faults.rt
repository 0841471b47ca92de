// What the commands answer where there is no file, or no command.

/// Programs without a service; trials, which need no file; and words that begin as a trial and are none.
pub static ROWS: &str = r#"~////////////////////////////////////////////////////////////////~16384~/
----
13 file too long p
====
(none)
----
3 file fault p
----
both p s
unsplit p s
====
interface D { fun n(): Int; } main { batch (D r) { print(r.n()); } }
----
3 file fault s
----
both p s
unsplit p s
====
main { }
----
3 file fault s
----
unsplit p s
====
(none)
----
3 file fault q
----
check q
====
interface D { fun n(): Int; } main { batch (D r) { print(r.n()); } } }
----
4 parse 6 Unexpected at 1:70
====
$
----
4 lex 1 BadByte at 1:1
====
interface D { fun n(): Int; } main { batch (D r) { print(r.n(1)); } }
----
4 types 4 WrongCount at 1:60
====
interface D { fun n(): Int; fun n(): Int; } main { batch (D r) { print(r.n()); } }
----
4 types 2 NameTaken at 1:33
====
interface D { fun n(): Int; } main { batch (E r) { print(r.n()); } }
----
4 types 1 UnknownName at 1:38
====
interface D { fun n(): Int; } main { batch (D r) { print(r.n()); } return 1; }
----
4 types 3 WrongType at 1:75
====
interface D { fun n(): Int; } main { batch (D r) { print(r); } }
----
5 refused 4 Escapes 1:58
====
(none)
----
0 617
0
done
exchanges 1
objects 2
----
trial 1
trial 00001
====
(none)
----
0 1702
0
done
exchanges 1
objects 4
----
trial 3
====
(none)
----
0 4212
1
done
exchanges 1
objects 9
----
trial 8
====
(none)
----
0 499500
99
done
exchanges 1
objects 1001
----
trial 1000
====
(none)
----
0 4995000
990
done
exchanges 1
objects 10001
----
trial 10000
====
(none)
----
2 words not understood
----
trial
trial 0
trial 00000
trial 10001
trial 99999
trial 012345
trial -1
trial 1x
trial x
trial 1 2
trial 1 2 3
trial p s
Trial 1"#;
