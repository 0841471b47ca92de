// The limits of the format of version 2, at their edge and past it.

use crate::payloads::{LongRow, Reader, long_rows_are_told};
use std::test::Fail;

/// Payloads in pieces, each with the number and the place of its refusal, 0 where it is taken.
static ROWS: [LongRow; 29] = [
    // 256 expressions within each other, 257, and 257 of which the last isn't there or isn't one.
    (
        &[("02 00 00 01 10 00 00", 1), ("24 01 00", 255), ("23", 1)],
        0,
        0,
    ),
    (
        &[("02 00 00 01 10 00 00", 1), ("24 01 00", 256), ("23", 1)],
        5,
        775,
    ),
    (
        &[("02 00 00 01 10 00 00", 1), ("24 01 00", 256), ("ff", 1)],
        5,
        775,
    ),
    (&[("02 00 00 01 10 00 00", 1), ("24 01 00", 256)], 1, 775),
    // 64 blocks, whose steps have one number; 65; and 65 of which the last isn't there.
    (
        &[("02 00 00", 1), ("01 13 00 00 23", 63), ("00", 64)],
        13,
        0,
    ),
    (
        &[("02 00 00", 1), ("01 13 00 00 23", 64), ("00", 1)],
        5,
        323,
    ),
    (&[("02 00 00", 1), ("01 13 00 00 23", 64)], 1, 323),
    (&[("02 00 00", 1), ("01 13 00 00 23", 65)], 5, 323),
    // The same blocks as those of steps that go over a list.
    (
        &[("02 00 01 04 00", 1), ("01 15 00 00 00 00", 64), ("00", 1)],
        5,
        389,
    ),
    (&[("02 00 01 04 00", 1), ("01 15 00 00 00 00", 64)], 1, 389),
    // A text of 4,096 bytes and one of 4,097, as a value of an input, and as a name.
    (
        &[("02 01 80 20", 1), ("61", 4096), ("01 03 00 00", 1)],
        0,
        0,
    ),
    (
        &[("02 01 81 20", 1), ("61", 4097), ("01 03 00 00", 1)],
        3,
        4103,
    ),
    (
        &[
            ("02 01 81 20", 1),
            ("61", 4097),
            ("00 01 10 00 00 26 00 00 00 23 00", 1),
        ],
        0,
        0,
    ),
    // The same as an item of a list, as a literal, and as a name that is a literal then.
    (
        &[("02 01 81 20", 1), ("61", 4097), ("01 04 01 03 00 00", 1)],
        3,
        4105,
    ),
    (
        &[
            ("02 01 81 20", 1),
            ("61", 4097),
            ("00 01 10 00 00 20 03 00", 1),
        ],
        3,
        4108,
    ),
    (
        &[
            ("02 01 81 20", 1),
            ("61", 4097),
            ("00 01 10 00 00 26 00 00 00 23 01 20 03 00", 1),
        ],
        3,
        4114,
    ),
    // A text of 4,097 bytes that nothing uses, one whose place comes too early, and one that is no UTF-8.
    (&[("02 01 81 20", 1), ("61", 4097), ("00 00", 1)], 7, 4103),
    (
        &[("02 02 00 81 20", 1), ("61", 4097), ("01 03 01 00", 1)],
        7,
        4104,
    ),
    (&[("02 01 81 20", 1), ("ff", 4097), ("00 00", 1)], 3, 2),
    // 1,000 items in one list, 1,001, and 1,001 that aren't there.
    (
        &[("02 00 01 04 e8 07", 1), ("02 00", 1000), ("00", 1)],
        0,
        0,
    ),
    (
        &[("02 00 01 04 e9 07", 1), ("02 00", 1001), ("00", 1)],
        8,
        4,
    ),
    (&[("02 00 01 04 e9 07", 1), ("02 00", 0)], 8, 4),
    // 1,000 in two lists, 1,001, and 1,000 with a list without items behind and one with one.
    (
        &[
            ("02 00 02 04 01 02 00 04 e7 07", 1),
            ("02 00", 999),
            ("00", 1),
        ],
        0,
        0,
    ),
    (
        &[
            ("02 00 02 04 01 02 00 04 e8 07", 1),
            ("02 00", 1000),
            ("00", 1),
        ],
        8,
        8,
    ),
    (
        &[("02 00 02 04 e8 07", 1), ("02 00", 1000), ("04 00 00", 1)],
        0,
        0,
    ),
    (
        &[
            ("02 00 02 04 e8 07", 1),
            ("02 00", 1000),
            ("04 01 02 00 00", 1),
        ],
        8,
        2007,
    ),
    // Two lists of which the first has too many, and a count that is much too great.
    (
        &[("02 00 02 04 e9 07", 1), ("02 00", 1001), ("04 e9 07", 1)],
        8,
        4,
    ),
    (
        &[("02 00 02 04 01 02 00 04", 1), ("ff", 4), ("0f", 1)],
        8,
        8,
    ),
    // 255 inputs that are lists of an item.
    (&[("02 00 ff", 1), ("04 01 02 00", 255), ("00", 1)], 0, 0),
];

#[test]
fn limits_are_kept(rt: HostRuntime) -> Result<(), Fail> {
    long_rows_are_told(rt.alloc(), Reader::Script, &ROWS)
}
