// Refusals of version 2 as bytes, both ways.

use crate::payloads::{Reader, Row, rows_are_told};
use std::test::Fail;

/// Payloads with the number and the place of the refusal that they spell, 0 where they spell none.
static ROWS: [Row; 32] = [
    ("02 01 05", 1, 5),
    ("02 02 00", 2, 0),
    ("02 03 ac 02", 3, 300),
    ("02 04 80 80 80 80 01", 4, 268_435_456),
    ("02 05 82 07", 5, 898),
    ("02 06 06", 6, 6),
    ("02 07 7f", 7, 127),
    ("02 08 80 01", 8, 128),
    ("02 0b 01", 11, 1),
    ("02 0c 00", 12, 0),
    ("02 0d ff ff ff ff 0f", 13, 4_294_967_295),
    ("02 0f 09", 15, 9),
    // Numbers that no refusal has.
    ("02 00 06", 0, 0),
    ("02 09 06", 0, 0),
    ("02 0a 06", 0, 0),
    ("02 0e 06", 0, 0),
    ("02 10 06", 0, 0),
    ("02 ff 06", 0, 0),
    // Places in groups that are needless, too great, too many or not there.
    ("02 01 80 00", 0, 0),
    ("02 01 80 80 80 80 00", 0, 0),
    ("02 01 ff ff ff ff 10", 0, 0),
    ("02 01 80 80 80 80 80", 0, 0),
    ("02 01 80 80 80 80 80 00", 0, 0),
    ("02 01 80", 0, 0),
    ("02 01 ff ff ff ff", 0, 0),
    // What lacks bytes, what has more, and what version 1 or no version spells.
    ("02", 0, 0),
    ("02 01", 0, 0),
    ("02 01 05 00", 0, 0),
    ("02 01 00000005", 0, 0),
    ("01 01 05", 0, 0),
    ("03 01 05", 0, 0),
    ("01 07 00000005", 0, 0),
];

#[test]
fn refusals_are_read_and_spelled(rt: HostRuntime) -> Result<(), Fail> {
    rows_are_told(rt.alloc(), Reader::Refusal, &ROWS)
}
