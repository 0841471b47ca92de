// Texts that are no services: each refusal, and which of two comes first.

/// Whole texts that aren't read, or whose classes aren't typed. What is wrong with the objects counts for nothing there.
pub static TEXTS: &str = r#"
----
the token at offset 0 isn't expected there
====
object 0: A { } root 0
----
the token at offset 22 isn't expected there
====
class A { v: B; } object 0: A { v = $; } root 0;
----
no token begins with the byte at offset 36
====
class A { v: B; } root 0; main { }
----
the token at offset 26 isn't expected there
====
class A { v: B; } root 0;
----
nothing of the name at offset 13 is known there
====
class A { fun f() { print(1); } } object 1: A { } root 0;
----
what stands at offset 20 isn't allowed there
====
class A { v: Rows<Int>; } object 0: A { v = []; } root 0;
----
the type at offset 13 may not stand there
====
root 0;
----
no object has the root's number"#;

/// Objects and a root behind the classes of the library, and why they have no table: the number of an object, its class, its
/// fields, their types, its references, and the root. The offsets of names are those of the classes, 178 bytes, and what
/// stands before them here. A number counts as it is written, and the first object of it decides.
pub static OBJECTS: &str = r#"object 1: Plan { rows = []; } root 0;
----
object 0 has another number
====
object 0: Plan { rows = []; } object 0: Plan { rows = []; } root 0;
----
object 1 has another number
====
object 1: Nope { } root 0;
----
object 0 has another number
====
object 0: Nope { } object 5: Plan { rows = []; } root 0;
----
nothing of the name at offset 188 is known there
====
object 0: Plan { } object 1: Nope { } root 0;
----
object 0 doesn't have the fields of its class
====
object 0: Plan { rows = []; rows = []; } root 0;
----
object 0 doesn't have the fields of its class
====
object 0: Book { pages = 1; title = ""; lent = true; } root 0;
----
object 0 doesn't have the fields of its class
====
object 0: Plan { row = 1; } root 0;
----
object 0 doesn't have the fields of its class
====
object 0: Plan { rows = 1; } object 1: Plan { } root 0;
----
object 0 has a value of another type than its field
====
object 0: Plan { rows = [[1], [true]]; } root 0;
----
object 0 has a value of another type than its field
====
object 0: Plan { rows = []; } object 1: Book { title = ""; pages = #99; lent = true; } root 0;
----
object 1 has a value of another type than its field
====
object 0: Shelf { books = []; best = #1; } object 1: Plan { rows = []; } root 0;
----
object 0 has a value of another type than its field
====
object 0: Shelf { books = [#99, 1]; best = #0; } root 0;
----
object 0 has a value of another type than its field
====
object 0: Shelf { books = [#99]; best = 1; } root 0;
----
object 0 refers to an object that isn't there
====
object 0: Shelf { books = []; best = #9223372036854775807; } root 0;
----
object 0 refers to an object that isn't there
====
object 0: Shelf { books = [#5]; best = #5; } object 5: Book { title = ""; pages = 1; lent = true; } root 0;
----
object 1 has another number
====
object 0: Shelf { books = []; best = #1; } object 1: Book { title = ""; pages = 1; lent = true; } object 1: Plan { rows = []; } root 0;
----
object 2 has another number
====
object 0: Shelf { books = []; best = #1; } object 1: Plan { rows = []; } object 1: Book { title = ""; pages = 1; lent = true; } root 0;
----
object 0 has a value of another type than its field
====
object 0: Shelf { books = []; best = #2; } root 7;
----
object 0 refers to an object that isn't there
====
object 0: Plan { rows = []; } root 1;
----
no object has the root's number
====
object 0: Plan { rows = []; } root 9223372036854775807;
----
no object has the root's number"#;
