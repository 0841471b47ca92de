// The limits of the format, at their edge and past it.

use crate::payloads::{LongRow, Reader, long_rows_are_told};
use std::test::Fail;

/// Payloads in pieces, each with the number and the place of its refusal, 0 where it is taken.
static ROWS: [LongRow; 16] = [
    // A text of 4,096 bytes, and one of 4,097, as a value and in a fault.
    (
        &[("01 00000001 31 03 00001000", 1), ("61", 4096), ("00", 1)],
        0,
        0,
    ),
    (
        &[("01 00000001 31 03 00001000", 1), ("c3a9", 2048), ("00", 1)],
        0,
        0,
    ),
    (
        &[("01 00000001 31 03 00001001", 1), ("61", 4097), ("00", 1)],
        3,
        7,
    ),
    (
        &[
            ("01 00000000 01 00000000 00000000 08 00001000", 1),
            ("61", 4096),
        ],
        0,
        0,
    ),
    (
        &[
            ("01 00000000 01 00000000 00000000 08 00001001", 1),
            ("61", 4097),
        ],
        3,
        15,
    ),
    // 64 nodes within each other as branches, 65, and 65 of which the last isn't there or is cut short.
    (
        &[
            ("01", 1),
            ("00000001 32 01", 63),
            ("00000000 00", 1),
            ("00", 63),
        ],
        0,
        0,
    ),
    (
        &[("01", 1), ("00000001 32 01", 64), ("00000000 00 00", 1)],
        5,
        385,
    ),
    (&[("01", 1), ("00000001 32 01", 64)], 1, 385),
    (&[("01", 1), ("00000001 32 01", 64), ("ff", 1)], 5, 385),
    // The same as turns; the 64th node may have rows without a turn.
    (
        &[
            ("01", 1),
            ("00000001 33 00000001", 63),
            ("00000000 00", 1),
            ("00", 63),
        ],
        0,
        0,
    ),
    (
        &[
            ("01", 1),
            ("00000001 33 00000001", 63),
            ("00000001 33 00000000 00", 1),
            ("00", 63),
        ],
        0,
        0,
    ),
    (
        &[
            ("01", 1),
            ("00000001 33 00000001", 64),
            ("00000000 00 00", 1),
        ],
        5,
        577,
    ),
    (&[("01", 1), ("00000001 33 00000001", 64)], 1, 577),
    (
        &[("01", 1), ("00000001 33 00000001", 64), ("ff", 1)],
        5,
        577,
    ),
    // What is too deep comes before what stands behind it, and behind what stands before it.
    (&[("01", 1), ("00000001 32 01", 65), ("30", 1)], 5, 385),
    (&[("07", 1), ("00000001 32 01", 65), ("30", 1)], 2, 0),
];

#[test]
fn limits_are_kept(rt: HostRuntime) -> Result<(), Fail> {
    long_rows_are_told(rt.alloc(), Reader::Forest, &ROWS)
}
