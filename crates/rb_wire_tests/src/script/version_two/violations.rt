// Payloads of version 2 that are refused, each with the number and the place of its refusal.

use crate::payloads::{Reader, Row, rows_are_told};
use std::test::Fail;

static ROWS: [Row; 58] = [
    // What ends too early: behind the version, the pool, the inputs, and a count of what isn't there.
    ("02", 1, 1),
    ("02 00", 1, 2),
    ("02 00 00", 1, 3),
    ("02 ff ff ff ff 0f", 1, 6),
    ("02 01 05 61", 1, 4),
    ("02 01 ff ff ff ff 0f 61", 1, 8),
    ("02 00 02 02 00", 1, 5),
    ("02 00 00 ff ff ff ff 0f", 1, 8),
    // Bytes behind the message.
    ("02 00 00 00 00", 6, 4),
    ("02 01 01 61 01 03 00 00 02 00 00 00", 6, 8),
    // Tags of values. Only an input may be a list, and no item of one.
    ("02 00 01 00", 2, 3),
    ("02 00 01 05 00", 2, 3),
    ("02 00 01 04 01 04 00", 2, 5),
    ("02 00 01 04 02 02 00 00", 2, 7),
    ("02 00 00 01 10 00 00 20 00", 2, 8),
    ("02 00 00 01 10 00 00 20 04 00", 2, 8),
    // Tags of steps and of expressions.
    ("02 00 00 01 0f", 2, 4),
    ("02 00 00 01 16", 2, 4),
    ("02 00 00 01 10 00 00 1f", 2, 7),
    ("02 00 00 01 10 00 00 27", 2, 7),
    // Operators and kinds.
    ("02 00 00 01 10 00 00 24 00", 2, 8),
    ("02 00 00 01 10 00 00 24 05", 2, 8),
    ("02 00 00 01 10 00 00 25 00", 2, 8),
    ("02 00 00 01 10 00 00 25 0e", 2, 8),
    ("02 01 01 6e 00 01 10 00 00 26 00 09", 2, 11),
    // Truth values: of an input, of a literal, of a Let and of an Each.
    ("02 00 01 02 02", 4, 4),
    ("02 00 00 01 10 00 00 20 02 02", 4, 9),
    ("02 00 00 01 12 00 00 00 02", 4, 8),
    ("02 00 00 01 14 00 00 00 ff", 4, 8),
    // A variable that nothing binds: here, behind its block, in its own Let, and behind the block of an Over.
    ("02 00 00 01 10 00 00 22 05", 11, 0),
    (
        "02 00 00 02 13 01 00 23 01 12 02 00 00 00 23 00 10 03 00 22 00",
        11,
        3,
    ),
    ("02 00 00 01 12 04 00 00 00 22 00", 11, 4),
    ("02 00 01 04 00 02 15 06 00 07 00 00 10 08 00 22 07", 11, 8),
    // An input that isn't there: in an expression, and of an Over.
    ("02 00 01 02 00 01 10 09 00 21 01", 12, 9),
    ("02 00 01 04 00 01 15 0a 00 00 01 00", 12, 10),
    // A number that stands twice, also within the block of an Over.
    ("02 00 00 02 10 03 00 23 10 03 00 23", 13, 3),
    (
        "02 00 01 04 00 01 15 ac 02 00 00 00 01 10 ac 02 00 23",
        13,
        300,
    ),
    // An Over whose input is no list, and an expression with an input that is one.
    ("02 00 01 02 00 01 15 0b 00 00 00 00", 15, 11),
    ("02 00 01 04 00 01 10 0c 00 21 00", 15, 12),
    (
        "02 00 02 01 00 04 00 01 11 ff ff ff ff 0f 00 25 01 00 21 00 21 01",
        15,
        4_294_967_295,
    ),
    // Two violations, either first: a tag and a truth value.
    ("02 00 02 05 02 02", 2, 3),
    ("02 00 02 02 02 05", 4, 4),
    // A number in groups and a tag.
    ("02 00 00 01 10 80 00 00 27", 4, 5),
    ("02 00 00 02 10 00 00 27 10 80 00", 2, 7),
    // A place in the pool and a truth value.
    ("02 00 02 03 00 02 02", 7, 4),
    ("02 00 02 02 02 03 00", 4, 4),
    // Too many items and a tag.
    ("02 00 01 04 e9 07 04", 8, 4),
    ("02 00 02 00 04 e9 07", 2, 3),
    // What violates the format comes before what isn't valid.
    ("02 00 00 02 10 00 00 22 05 10 01 00 27", 2, 12),
    ("02 00 00 01 10 00 00 22 05 00", 6, 9),
    ("02 01 01 61 00 01 10 00 00 22 05", 7, 11),
    // Of what isn't valid the first: a variable and an input, and the other way round.
    ("02 00 00 01 10 00 00 25 01 00 22 05 21 00", 11, 0),
    ("02 00 00 01 10 00 00 25 01 00 21 00 22 05", 12, 0),
    // An input that is a list and a variable, and the other way round.
    ("02 00 01 04 00 01 10 0d 00 25 01 00 21 00 22 05", 15, 13),
    ("02 00 01 04 00 01 10 0d 00 25 01 00 22 05 21 00", 11, 13),
    // A step's number comes before its expression or its input, and its input before its block.
    ("02 00 01 02 00 02 10 01 00 23 15 01 00 00 00 00", 13, 1),
    ("02 00 01 02 00 01 15 01 00 00 00 01 10 01 00 23", 15, 1),
    ("02 00 01 04 00 01 15 01 00 00 01 01 10 01 00 23", 12, 1),
];

#[test]
fn the_first_refusal_is_answered(rt: HostRuntime) -> Result<(), Fail> {
    rows_are_told(rt.alloc(), Reader::Script, &ROWS)
}
