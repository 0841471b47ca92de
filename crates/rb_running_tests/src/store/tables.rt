// Texts that are services, and their tables as they are printed.

use crate::store::refusals::{OBJECTS, TEXTS};
use crate::store::texts::{CLASSES, behind, expect_each};
use rb_store::read_service;
use rb_trees::StoreError;
use std::alloc::Global;
use std::test::Fail;

/// Objects and a root, and the table.
pub static TABLES: &str = r#"object 0: Shelf { books = [#1, #2]; best = #2; }
        object 1: Book { title = "a"; pages = 10; lent = false; }
        object 2: Book { title = "bb"; pages = -200; lent = true; }
        root 0;
----
object 0: Shelf { books = [#1, #2]; best = #2; }
object 1: Book { title = "a"; pages = 10; lent = false; }
object 2: Book { title = "bb"; pages = -200; lent = true; }
====
object 0: Book { title = "\"q\"\\\né"; pages = 007; lent = true; } root 00;
----
object 0: Book { title = "\"q\"\\\né"; pages = 7; lent = true; }
====
object 0: Book { title = ""; pages = -9223372036854775808; lent = true; } root 0;
----
object 0: Book { title = ""; pages = -9223372036854775808; lent = true; }
====
object 0: Book { title = ""; pages = 9223372036854775807; lent = true; } root 0;
----
object 0: Book { title = ""; pages = 9223372036854775807; lent = true; }
====
object 0: Plan { rows = []; } root 0;
----
object 0: Plan { rows = []; }
====
object 0: Plan { rows = [[], [1], [2, -0, 3]]; } object 1: Plan { rows = [[]]; } root 1;
----
object 0: Plan { rows = [[], [1], [2, 0, 3]]; }
object 1: Plan { rows = [[]]; }
====
object 0: Book { title = "a"; pages = 1; lent = true; }
        object 1: Shelf { books = [# 0, #00]; best = #0; } root 1;
----
object 0: Book { title = "a"; pages = 1; lent = true; }
object 1: Shelf { books = [#0, #0]; best = #0; }
====
class Bell { } object 0: Bell { } object 1: Bell { } root 1;
----
object 0: Bell { }
object 1: Bell { }
====
class Knot { other: Knot; } object 0: Knot { other = #1; } object 1: Knot { other = #1; } root 0;
----
object 0: Knot { other = #1; }
object 1: Knot { other = #1; }"#;

#[test]
fn a_text_has_a_table_or_its_first_refusal(rt: HostRuntime) -> Result<(), Fail> {
    let alloc = rt.alloc();
    expect_each(alloc, "", TEXTS)?;
    expect_each(alloc, CLASSES, OBJECTS)?;
    expect_each(alloc, CLASSES, TABLES)
}

/// How many classes and objects a text behind the classes of the library has, and its root.
fn counted(alloc: Global, objects: &str) -> Result<(usize, u32, u32), StoreError> {
    let source = behind(alloc, CLASSES, objects)?;
    let (service, table) = read_service(alloc, source.as_slice())?;
    Ok((service.classes.len(), table.len(), service.root))
}

#[test]
fn a_service_has_the_classes_and_the_root_of_its_text(rt: HostRuntime) -> Result<(), Fail> {
    let objects = "object 0: Plan { rows = []; } object 1: Plan { rows = []; } root 1;";
    assert!(rt; counted(rt.alloc(), objects)? == (3, 2, 1));
    Ok(())
}
