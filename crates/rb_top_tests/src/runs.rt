// Which programs are run on which services, and what is printed.

/// Programs of other forms, programs that aren't run, and words that are no command.
pub static FORMS: &str = r#"interface D { fun n(): Int; } main { batch (D r) { print(1); } }
----
0 1
done
exchanges 1
object 0: D { }
====
interface D { fun n(): Int; } main { batch (D r) { r.n(); } }
----
0 done
exchanges 1
object 0: D { }
====
interface D { fun n(): Int; } main { batch (D D) { print(D.n()); } }
----
0 7
done
exchanges 1
object 0: D { }
====
interface D { fun n(): Text; } main { batch (D r) { print(r.n()); } }
----
1 fault 11 WrongKind at 1:61
exchanges 1
object 0: D { }
====
interface D { fun n(a: Int): Int; } main { batch (D r) { print(r.n(1)); } }
----
1 fault 10 BadArguments at 1:66
exchanges 1
object 0: D { }
====
interface D { fun n(): Int; } class C { } main { batch (D r) { print(r.n()); } }
----
0 7
done
exchanges 1
object 0: D { }
====
interface D { fun n(): Int; } interface E { } main { batch (D r) { print(r.n()); } }
----
0 7
done
exchanges 1
object 0: D { }
====
interface D { fun n(): Int; } main: Int { batch (D r) { print(r.n()); } return 1; }
----
0 7
done 1
exchanges 1
object 0: D { }
====
interface D { fun n(): Int; } main { batch (D r) { } batch (D r) { } }
----
0 done
exchanges 2
object 0: D { }
====
interface D { fun n(): Int; } main { if (true) { batch (D r) { } } }
----
0 done
exchanges 1
object 0: D { }
====
interface D { fun n(): Int; } class C { remote fun f() { batch (D r) { } } } main { }
----
0 done
exchanges 0
object 0: D { }
====
(none)
----
3 file fault p
====
$
----
4 lex 1 BadByte at 1:1
----
unsplit p s
====
interface D { fun n(): Int; } main { batch (D r) { print(r); } }
----
5 refused 4 Escapes 1:58
----
unsplit p s
====
interface D { fun n(): Int; } main { batch (D r) { print(r.n()); } }
----
2 words not understood
----
both p
both
Both p s
both p s s
p both s
check
check p s
Check p
both p s 1000000001
both p s 01000000000
both p s -1
both p s 1x
check p 1
both p s 1 2
unsplit
unsplit p
Unsplit p s
p unsplit s
unsplit p s s
unsplit p s 1 2
run
run a
run a p s
run a p 1 2
Run a p
pair
pair p
pair p s s
pair p s 1 2
child
child s 1
Child s
serve
serve a
serve a s
serve a s 1 2"#;

/// Services that the program of one print runs on, and texts that are none.
pub static SERVICES: &str = r#"class D { fun m(): Int { return 7; } } object 0: D { } root 0;
----
1 fault 9 NoMethod at 1:60
exchanges 1
object 0: D { }
====
class D { k: Int; fun n(): Int { this.k = this.k + 1; return this.k; } } object 0: D { k = 4; } root 0; // end
----
0 5
done
exchanges 1
object 0: D { k = 5; }
====
class D { fun n(): Text { return "x"; } } object 0: D { } root 0;
----
1 fault 11 WrongKind at 1:60
exchanges 1
object 0: D { }
====
class D { fun n(a: Int): Int { return a; } } object 0: D { } root 0;
----
1 fault 10 BadArguments at 1:60
exchanges 1
object 0: D { }
====
class D { v: Text; fun n(): Int { this.v = "b"; throw "no \"n\""; return 1; } } object 0: D { v = "a"; } root 0;
----
1 fault 8 Thrown "no \"n\"" at 1:60
exchanges 1
object 0: D { v = "b"; }
====
class D { fun n(): Int { return this.n(); } } object 0: D { } root 0;
----
1 fault 6 TooDeep at 1:60
exchanges 1
object 0: D { }
====
class E { b: Bool; } class D { es: List<E>; fun n(): Int { return len(this.es); } } object 0: E { b = true; } object 1: D { es = [#0, #0]; } root 1;
----
0 2
done
exchanges 1
object 0: E { b = true; }
object 1: D { es = [#0, #0]; }
====
class D { fun n(): Int { new D(); return 3; } } object 0: D { } root 0;
----
0 3
done
exchanges 1
object 0: D { }
object 1: D { }
====
class D { fun n(): Int { return 1 / 0; } } object 0: D { } root 0;
----
1 fault 1 DivZero at 1:60
exchanges 1
object 0: D { }
====
class D { fun n(): Int { var i = 0; while (true) { i = i + 1; } return i; } } object 0: D { } root 0;
----
1 fault 7 FuelUsed at 1:60
exchanges 1
object 0: D { }
====
class D { fun n(): Int { return 9223372036854775807; } } object 0: D { } root 0;
----
0 9223372036854775807
done
exchanges 1
object 0: D { }
====
~////////////////////////////////////////////////////////////////~16384~/
----
13 file too long s
====
$
----
6 service lex 1 BadByte at 1:1
----
unsplit p s"#;

/// Texts that are no service.
pub static REFUSED: &str = r#"class D { } $
----
6 service lex 1 BadByte at 1:13
====

----
6 service parse 6 Unexpected at 1:1
====
class D { } root 0
----
6 service parse 6 Unexpected at 1:19
====
class D { v: E; } object 0: D { v = #0; } root 0;
----
6 service types 1 UnknownName at 1:14
====
class D { fun f() {
  print(1); } } object 0: D { } root 0;
----
6 service types 8 NotAllowedHere at 2:3
====
class D { } object 1: D { } root 0;
----
6 service 24 ObjectNumber object 0
====
class D { } object 0: E { } root 0;
----
6 service types 1 UnknownName at 1:23
====
class D { v: Int; } object 0: D { } root 0;
----
6 service 22 FieldMissing object 0
====
class D { v: Int; } object 0: D { v = 1; } object 1: D { v = "x"; } root 0;
----
6 service 23 FieldKind object 1
====
class D { v: List<D>; } object 0: D { v = [#0, #7]; } root 0;
----
6 service 21 BadReference object 0
====
class D { } object 0: D { } root 9;
----
6 service 20 NoRoot
====
class D { } root 0;
----
6 service 20 NoRoot"#;

/// What stands in a batch.
pub static PRINTS: &str = r#"print(r.n());
----
0 7
done
exchanges 1
object 0: D { }
====

----
0 done
exchanges 1
object 0: D { }
====
// in order
print(r.m()); print(r.n()); print(r.m()); print(r.z());
----
0 12
7
12
0
done
exchanges 1
object 0: D { }"#;

/// A service that faults at the second of three prints.
pub static FAULTING: &str =
    r#"class D { k: Int; fun n(): Int { this.k = this.k - 1; return 6 / this.k; } } object 0: D { k = 2; } root 0;
----
1 6
fault 1 DivZero at 1:74
exchanges 1
object 0: D { k = 0; }"#;
