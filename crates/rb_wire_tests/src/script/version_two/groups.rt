// Numbers in groups of seven bits, in payloads of version 2.

use crate::payloads::{Reader, Row, rows_are_told};
use std::test::Fail;

/// Payloads, each with the number and the place of its refusal, 0 where it is taken.
static ROWS: [Row; 51] = [
    // The count of a block: 0 and its needless groups.
    ("02 00 00 00", 0, 0),
    ("02 00 00 80 00", 4, 3),
    ("02 00 00 80 80 80 80 00", 4, 3),
    // In five groups the last one is below 16: the greatest number, and ones that are too great.
    ("02 00 00 ff ff ff ff 0f", 1, 8),
    ("02 00 00 ff ff ff ff 10", 4, 3),
    ("02 00 00 80 80 80 80 10", 4, 3),
    ("02 00 00 ff ff ff ff 7f", 4, 3),
    // A fifth group with its high bit, also where the payload ends there.
    ("02 00 00 80 80 80 80 80", 4, 3),
    ("02 00 00 80 80 80 80 80 00", 4, 3),
    ("02 00 00 ff ff ff ff 8f", 4, 3),
    ("02 00 00 ff ff ff ff ff 00", 4, 3),
    // Groups that the payload lacks.
    ("02 00 00 80", 1, 4),
    ("02 00 00 80 80 80 80", 1, 7),
    ("02 00 00 ff ff ff ff", 1, 7),
    // A needless group is one also where the payload ends behind it, or goes on.
    ("02 00 00 81 00", 4, 3),
    ("02 00 00 ff 00", 4, 3),
    ("02 00 00 ff ff 00 00", 4, 3),
    ("02 00 00 ff ff ff 00", 4, 3),
    ("02 00 00 ff ff ff ff 00", 4, 3),
    // The counts of the pool and of a text's bytes.
    ("02 80 00 00 00", 4, 1),
    ("02 01 80 00 00 00", 4, 2),
    ("02 01 81 00 61 00 00", 4, 2),
    // The numbers of steps, positions, variables: the greatest, and one too great.
    ("02 00 00 01 10 ff ff ff ff 0f ff ff ff ff 0f 23", 0, 0),
    ("02 00 00 01 10 ff ff ff ff 1f 00 23", 4, 5),
    ("02 00 00 01 10 00 80 80 80 80 10 23", 4, 6),
    ("02 00 00 01 12 00 00 ff ff ff ff 0f 00 23", 0, 0),
    ("02 00 00 01 12 00 00 81 00 00 23", 4, 7),
    ("02 00 00 01 10 00 00 22 80 00", 4, 8),
    ("02 00 01 04 00 01 15 00 00 80 00 00 00", 4, 9),
    // A place in the pool, the count of a call's arguments, the count of a list.
    ("02 01 01 61 01 03 80 00 00", 4, 6),
    ("02 01 01 6e 00 01 10 00 00 26 00 00 80 00 23 00", 4, 12),
    ("02 01 01 6e 00 01 10 00 00 26 00 00 00 23 80 00", 4, 14),
    ("02 00 01 04 80 00 00", 4, 4),
    ("02 00 01 04 e8 87 00", 4, 4),
    // Int values: 0, -1, 1, 64, the least and the greatest.
    ("02 00 01 01 00 00", 0, 0),
    ("02 00 01 01 01 00", 0, 0),
    ("02 00 01 01 02 00", 0, 0),
    ("02 00 01 01 80 01 00", 0, 0),
    ("02 00 01 01 ff ff ff ff ff ff ff ff ff 01 00", 0, 0),
    ("02 00 01 01 fe ff ff ff ff ff ff ff ff 01 00", 0, 0),
    // Needless groups of an Int.
    ("02 00 01 01 80 00 00", 4, 4),
    ("02 00 01 01 81 00", 4, 4),
    ("02 00 01 01 80 80 80 80 80 80 80 80 80 00 00", 4, 4),
    // In ten groups the last one is below 2.
    ("02 00 01 01 80 80 80 80 80 80 80 80 80 02 00", 4, 4),
    ("02 00 01 01 ff ff ff ff ff ff ff ff ff 03 00", 4, 4),
    ("02 00 01 01 ff ff ff ff ff ff ff ff ff 7f 00", 4, 4),
    // A tenth group with its high bit, also where the payload ends there.
    ("02 00 01 01 80 80 80 80 80 80 80 80 80 80", 4, 4),
    ("02 00 01 01 80 80 80 80 80 80 80 80 80 81 00", 4, 4),
    ("02 00 01 01 ff ff ff ff ff ff ff ff ff ff ff ff", 4, 4),
    // Groups of an Int that the payload lacks.
    ("02 00 01 01 80", 1, 5),
    ("02 00 01 01 80 80 80 80 80 80 80 80 80", 1, 13),
];

#[test]
fn numbers_have_as_many_groups_as_they_need(rt: HostRuntime) -> Result<(), Fail> {
    rows_are_told(rt.alloc(), Reader::Script, &ROWS)
}
