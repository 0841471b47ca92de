// The limits of the format, at their edge and past it.

use crate::payloads::{LongRow, Reader, long_rows_are_told};
use std::test::Fail;

/// Payloads in pieces, each with the number and the place of its refusal, 0 where it is taken.
static ROWS: [LongRow; 11] = [
    // 256 expressions within each other, 257, and 257 of which the last isn't there.
    (
        &[
            ("01 00 00000001 10 00000000 00000000", 1),
            ("24 01 00000000", 255),
            ("23", 1),
        ],
        0,
        0,
    ),
    (
        &[
            ("01 00 00000001 10 00000000 00000000", 1),
            ("24 01 00000000", 256),
            ("23", 1),
        ],
        5,
        1551,
    ),
    (
        &[
            ("01 00 00000001 10 00000000 00000000", 1),
            ("24 01 00000000", 256),
            ("ff", 1),
        ],
        5,
        1551,
    ),
    (
        &[
            ("01 00 00000001 10 00000000 00000000", 1),
            ("24 01 00000000", 256),
        ],
        1,
        1551,
    ),
    // A text of 4,096 bytes, and one of 4,097.
    (
        &[("01 01 03 00001000", 1), ("61", 4096), ("00000000", 1)],
        0,
        0,
    ),
    (
        &[("01 01 03 00001001", 1), ("61", 4097), ("00000000", 1)],
        3,
        3,
    ),
    // 65 blocks within each other.
    (
        &[
            ("01 00", 1),
            ("00000001 13 00000000 00000000 23", 64),
            ("00000000", 1),
        ],
        5,
        898,
    ),
    (
        &[("01 00", 1), ("00000001 13 00000000 00000000 23", 64)],
        1,
        898,
    ),
    (
        &[("01 00", 1), ("00000001 13 00000000 00000000 23", 65)],
        5,
        898,
    ),
    // Blocks within each other whose steps have numbers of their own: 64, and 65.
    (
        &[
            ("01 00", 1),
            ("00000001 13 000000# 00000000 23", 63),
            ("00000000", 64),
        ],
        0,
        0,
    ),
    (
        &[
            ("01 00", 1),
            ("00000001 13 000000# 00000000 23", 64),
            ("00000000", 65),
        ],
        5,
        898,
    ),
];

#[test]
fn limits_are_kept(rt: HostRuntime) -> Result<(), Fail> {
    long_rows_are_told(rt.alloc(), Reader::Script, &ROWS)
}
