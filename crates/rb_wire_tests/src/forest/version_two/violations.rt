// Payloads of version 2 that spell no forest, each with the number and the place of its first violation.

use crate::payloads::{Reader, Row, rows_are_told};
use std::test::Fail;

static ROWS: [Row; 57] = [
    // A root that isn't there, and counts of what isn't there.
    ("02", 1, 1),
    ("02 ffffffff", 1, 5),
    ("02 00000001 33 ffffffff", 1, 10),
    // Bytes behind the forest.
    ("02 00000000 00 00", 6, 6),
    ("02 00000001 31 02 00 00 02 00000000 00", 6, 9),
    // The tags of entries, of values and of ends. No entry is a list.
    ("02 00000001 30", 2, 5),
    ("02 00000001 34", 2, 5),
    ("02 00000001 31 00", 2, 6),
    ("02 00000001 31 04 00", 2, 6),
    ("02 00000000 02", 2, 5),
    ("02 00000000 ff", 2, 5),
    // Truth values.
    ("02 00000001 31 02 02", 4, 7),
    ("02 00000001 32 02", 4, 6),
    ("02 00000001 32 ff", 4, 6),
    // Codes of faults. A text stands behind code 8 alone.
    ("02 00000000 01 00 00 00", 2, 8),
    ("02 00000000 01 00 00 0d", 2, 8),
    ("02 00000000 01 00 09 0c 01 61", 6, 9),
    ("02 00000000 01 00 09 07 00", 6, 9),
    ("02 00000000 01 00 09 08", 1, 9),
    // Ints: needless groups, a tenth group above 1, and one with its high bit, where the payload ends there too.
    ("02 00000001 31 01 80 00 00", 4, 7),
    ("02 00000001 31 01 ff 00", 4, 7),
    ("02 00000001 31 01 80 80 80 80 80 80 80 80 80 00 00", 4, 7),
    ("02 00000001 31 01 ff ff ff ff ff ff ff ff ff 02 00", 4, 7),
    ("02 00000001 31 01 80 80 80 80 80 80 80 80 80 80", 4, 7),
    ("02 00000001 31 01 80 80 80 80 80 80 80 80 80", 1, 16),
    // Numbers of faults: needless groups, a fifth group above 15, and one with its high bit, where the payload ends there too.
    ("02 00000000 01 80 00 00 07", 4, 6),
    ("02 00000000 01 00 81 00 07", 4, 7),
    ("02 00000000 01 ff ff ff ff 10 00 07", 4, 6),
    ("02 00000000 01 00 80 80 80 80 00 07", 4, 7),
    ("02 00000000 01 80 80 80 80 80", 4, 6),
    ("02 00000000 01 00 80 80 80 80 80", 4, 7),
    ("02 00000000 01 00 80 80 80 80", 1, 11),
    // Lengths of texts: needless groups, and a fifth group above 15.
    ("02 00000001 31 03 80 00 00", 4, 7),
    ("02 00000000 01 00 00 08 81 00 61", 4, 9),
    ("02 00000001 31 03 ff ff ff ff 1f", 4, 7),
    // Texts that aren't UTF-8: a stray byte, a character cut short, one spelled too long, and a surrogate.
    ("02 00000001 31 03 01 ff 00", 3, 7),
    ("02 00000001 31 03 01 c3 00", 3, 7),
    ("02 00000001 31 03 02 c080 00", 3, 7),
    ("02 00000001 31 03 03 eda080 00", 3, 7),
    ("02 00000000 01 00 00 08 01 80", 3, 9),
    // Texts that are too long, whatever is there of them, and texts that the payload lacks.
    ("02 00000001 31 03 81 20", 3, 7),
    ("02 00000001 31 03 ff ff ff ff 0f ff", 3, 7),
    ("02 00000001 31 03 80 20", 1, 9),
    ("02 00000001 31 03 02 ff", 1, 9),
    ("02 00000000 01 00 00 08 81 20", 3, 9),
    // Two violations, the first one in reading order: a tag and a truth value, a truth value and a tag.
    ("02 00000002 31 04 32 02", 2, 6),
    ("02 00000002 32 02 00000000 00 31 04", 4, 6),
    // A text and a tag, a tag and a text.
    ("02 00000002 31 03 01 ff 34", 3, 7),
    ("02 00000002 34 31 03 01 ff", 2, 5),
    // An Int and a code, a number and a code, and the other way round.
    ("02 00000001 31 01 80 00 01 00 00 0d", 4, 7),
    ("02 00000000 01 80 00 00 0d", 4, 6),
    (
        "02 00000001 33 00000001 00000000 01 00 00 0d 01 80 00",
        2,
        17,
    ),
    // What is cut short behind a truth value, and an end within a turn and bytes behind.
    ("02 00000002 31 02 02", 4, 7),
    ("02 00000001 33 00000001 00000000 05 00 00", 2, 14),
    // Values, ends and faults as version 1 spells them.
    ("02 00000001 31 01 0000000000000007 00", 6, 9),
    ("02 00000001 31 03 00000001 61 00", 6, 9),
    ("02 00000000 01 00000000 00000009 0c", 2, 8),
];

#[test]
fn the_first_violation_is_answered(rt: HostRuntime) -> Result<(), Fail> {
    rows_are_told(rt.alloc(), Reader::Forest, &ROWS)
}
