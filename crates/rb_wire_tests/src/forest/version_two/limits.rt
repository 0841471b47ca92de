// The limits of the format of forests in version 2, at their edge and past it.

use crate::payloads::{LongRow, Reader, long_rows_are_told};
use std::test::Fail;

/// Payloads in pieces, each with the number and the place of its refusal, 0 where it is taken.
static ROWS: [LongRow; 16] = [
    // A text of 4,096 bytes, and one of 4,097, as a value and in a fault.
    (
        &[("02 00000001 31 03 80 20", 1), ("61", 4096), ("00", 1)],
        0,
        0,
    ),
    (
        &[("02 00000001 31 03 80 20", 1), ("c3a9", 2048), ("00", 1)],
        0,
        0,
    ),
    (
        &[("02 00000001 31 03 81 20", 1), ("61", 4097), ("00", 1)],
        3,
        7,
    ),
    (&[("02 00000000 01 00 00 08 80 20", 1), ("61", 4096)], 0, 0),
    (&[("02 00000000 01 00 00 08 81 20", 1), ("61", 4097)], 3, 9),
    // 64 nodes within each other as branches, 65, and 65 of which the last isn't there or is cut short.
    (
        &[
            ("02", 1),
            ("00000001 32 01", 63),
            ("00000000 00", 1),
            ("00", 63),
        ],
        0,
        0,
    ),
    (
        &[("02", 1), ("00000001 32 01", 64), ("00000000 00 00", 1)],
        5,
        385,
    ),
    (&[("02", 1), ("00000001 32 01", 64)], 1, 385),
    (&[("02", 1), ("00000001 32 01", 64), ("ff", 1)], 5, 385),
    // The same as turns; the 64th node may have rows without a turn.
    (
        &[
            ("02", 1),
            ("00000001 33 00000001", 63),
            ("00000000 00", 1),
            ("00", 63),
        ],
        0,
        0,
    ),
    (
        &[
            ("02", 1),
            ("00000001 33 00000001", 63),
            ("00000001 33 00000000 00", 1),
            ("00", 63),
        ],
        0,
        0,
    ),
    (
        &[
            ("02", 1),
            ("00000001 33 00000001", 64),
            ("00000000 00 00", 1),
        ],
        5,
        577,
    ),
    (&[("02", 1), ("00000001 33 00000001", 64)], 1, 577),
    (
        &[("02", 1), ("00000001 33 00000001", 64), ("ff", 1)],
        5,
        577,
    ),
    // What is too deep comes before what stands behind it, and behind what stands before it.
    (&[("02", 1), ("00000001 32 01", 65), ("30", 1)], 5, 385),
    (
        &[
            ("02 00000002 31 01 80 00", 1),
            ("00000001 32 01", 65),
            ("30", 1),
        ],
        4,
        7,
    ),
];

#[test]
fn limits_are_kept(rt: HostRuntime) -> Result<(), Fail> {
    long_rows_are_told(rt.alloc(), Reader::Forest, &ROWS)
}
