// Heaps, and what they answer.

use crate::heap::answers::{add_answers, add_object};
use crate::told::expect;
use rb_heap::{AddStop, Heap};
use rb_trees::{Memory, Seq, Word};
use std::alloc::Global;
use std::test::Fail;

/// How many objects a heap has at most.
const MOST: u32 = 100_000;

/// What is shown; how many objects of class A a heap begins with; questions to it; then to the heap, to a copy that is
/// made of it in between, and to the heap again, if it is copied; and the answers.
type Row = (
    &'static str,
    u32,
    &'static str,
    Option<[&'static str; 3]>,
    &'static str,
);

/// Heaps without a copy.
static HEAPS: [Row; 10] = [
    (
        "a heap without objects is printed as nothing",
        0,
        "*",
        None,
        " ",
    ),
    (
        "objects are numbered in order",
        0,
        "# +A +B # ?1 ?2 :0 :1 :2",
        None,
        "0 0 1 2 B - A B - ",
    ),
    (
        "a field is found by its name",
        0,
        "+Px1y2 +Px3y4 .0x .0y .1y .1z .2x",
        None,
        "0 1 1 2 4 - - ",
    ),
    (
        "one field of one object is written",
        0,
        "+Px1y2 +Px3y4 =1y5 .1y .1x .0y",
        None,
        "0 1 . 5 3 2 ",
    ),
    (
        "a value without a field is handed back",
        0,
        "+Px1y2 +Px3y4 =1z5 =2x6 .1x",
        None,
        "0 1 5 6 3 ",
    ),
    (
        "objects of one layout are seen each with its values",
        0,
        "+Px1y2 +Px3y4 +Px5y6 * ?3",
        None,
        "0 1 2 object 0: P { x = 1; y = 2; }\n\
object 1: P { x = 3; y = 4; }\n\
object 2: P { x = 5; y = 6; }\n - ",
    ),
    (
        "fields are seen in the order of each object",
        0,
        "+Px1y2 +Py3x4 +Px5y6 +Px7 *",
        None,
        "0 1 2 3 object 0: P { x = 1; y = 2; }\n\
object 1: P { y = 3; x = 4; }\n\
object 2: P { x = 5; y = 6; }\n\
object 3: P { x = 7; }\n ",
    ),
    (
        "classes with the same fields are told apart",
        0,
        "+Px1 +Qx2 +Px3 +Qx4 *",
        None,
        "0 1 2 3 object 0: P { x = 1; }\n\
object 1: Q { x = 2; }\n\
object 2: P { x = 3; }\n\
object 3: Q { x = 4; }\n ",
    ),
    (
        "a field of another layout is missing",
        0,
        "+Px1y2 +Px3 .0y .1y .1x",
        None,
        "0 1 2 - 3 ",
    ),
    (
        "a full heap hands the object back",
        MOST,
        "# +B # :9",
        None,
        "100000 B 100000 A ",
    ),
];

/// Heaps that are copied.
static COPIES: [Row; 3] = [
    (
        "a copy has the same objects",
        0,
        "+A",
        Some(["+B", "# :0", "#"]),
        "0 1 1 A 2 ",
    ),
    (
        "a write into a copy is seen there alone",
        0,
        "+Px1y2 +Py3x4 *",
        Some(["?2", "=1x5 +Px6y7 *", "* ?2"]),
        "0 1 object 0: P { x = 1; y = 2; }\n\
object 1: P { y = 3; x = 4; }\n - . 2 \
object 0: P { x = 1; y = 2; }\n\
object 1: P { y = 3; x = 5; }\n\
object 2: P { x = 6; y = 7; }\n \
object 0: P { x = 1; y = 2; }\n\
object 1: P { y = 3; x = 4; }\n - ",
    ),
    (
        "writes beside a copy are not seen there",
        0,
        "+Px1y2 +Px3y4",
        Some(["=0x5 =0y6 =0x7", "*", "*"]),
        "0 1 . . . object 0: P { x = 1; y = 2; }\n\
object 1: P { x = 3; y = 4; }\n \
object 0: P { x = 7; y = 6; }\n\
object 1: P { x = 3; y = 4; }\n ",
    ),
];

/// Adds objects to a heap, each with the number behind the one before.
fn fill(alloc: Global, heap: &mut Heap, count: u32) -> Result<(), AddStop> {
    for number in 0..count {
        if add_object(alloc, heap, b'A', b"")? != number {
            break;
        }
    }
    Ok(())
}

/// Adds what a heap, its copy and the heap again answer.
fn add_both(
    alloc: Global,
    heap: &mut Heap,
    copy: &mut Heap,
    questions: &[&str; 3],
    told: &mut Word,
) -> Result<(), Memory> {
    add_answers(alloc, heap, questions[0], told)?;
    add_answers(alloc, copy, questions[1], told)?;
    add_answers(alloc, heap, questions[2], told)
}

/// Adds the same of a heap that is copied.
fn add_copied(
    alloc: Global,
    heap: &mut Heap,
    questions: &[&str; 3],
    told: &mut Word,
) -> Result<(), Memory> {
    let mut copy = heap.copy(alloc)?;
    add_both(alloc, heap, &mut copy, questions, told)
}

/// Adds all that the heap of a row answers.
fn add_told(alloc: Global, heap: &mut Heap, row: &Row, told: &mut Word) -> Result<(), AddStop> {
    let (_, count, before, questions, _) = row;
    fill(alloc, heap, *count)?;
    add_answers(alloc, heap, before, told)?;
    match questions {
        Some(questions) => Ok(add_copied(alloc, heap, questions, told)?),
        None => Ok(()),
    }
}

/// Fails where a heap answers something else than is wanted.
fn expect_row(alloc: Global, row: &Row) -> Result<(), Fail> {
    let mut heap = Heap::make(alloc);
    let mut told = Seq::new(alloc);
    add_told(alloc, &mut heap, row, &mut told)?;
    expect(row.0, told.as_slice(), row.4)
}

/// Fails where one of these heaps answers something else than is wanted.
fn expect_rows(alloc: Global, rows: &[Row]) -> Result<(), Fail> {
    for row in rows {
        expect_row(alloc, row)?;
    }
    Ok(())
}

#[test]
fn heaps_answer_as_the_list_of_their_objects_and_copies_go_on_apart(
    rt: HostRuntime,
) -> Result<(), Fail> {
    expect_rows(rt.alloc(), &HEAPS)?;
    expect_rows(rt.alloc(), &COPIES)
}
