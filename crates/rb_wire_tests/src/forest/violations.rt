// Payloads that spell no forest, each with the number and the place of its first violation.

use crate::payloads::{Reader, Row, rows_are_told};
use std::test::Fail;

static ROWS: [Row; 39] = [
    // Nothing, and a version that isn't known.
    ("", 1, 0),
    ("00", 2, 0),
    ("03 00000000 00", 2, 0),
    // A root that isn't there, and counts of what isn't there.
    ("01", 1, 1),
    ("01 ffffffff", 1, 5),
    ("01 00000001 33 ffffffff", 1, 10),
    // Bytes behind the forest.
    ("01 00000000 00 00", 6, 6),
    ("01 00000001 31 02 00 00 01 00000000 00", 6, 9),
    // The tags of entries, of values and of ends.
    ("01 00000001 30", 2, 5),
    ("01 00000001 34", 2, 5),
    ("01 00000001 31 00", 2, 6),
    ("01 00000001 31 04", 2, 6),
    ("01 00000000 02", 2, 5),
    ("01 00000000 ff", 2, 5),
    // Truth values.
    ("01 00000001 31 02 02", 4, 7),
    ("01 00000001 32 02", 4, 6),
    ("01 00000001 32 ff", 4, 6),
    // Codes of faults. A text stands behind code 8 alone.
    ("01 00000000 01 00000000 00000000 00", 2, 14),
    ("01 00000000 01 00000000 00000000 0d", 2, 14),
    ("01 00000000 01 00000000 00000009 0c 00000001 61", 6, 15),
    ("01 00000000 01 00000000 00000009 07 00000000", 6, 15),
    ("01 00000000 01 00000000 00000009 08", 1, 15),
    // Texts that aren't UTF-8: a stray byte, a character cut short, one spelled too long, and a surrogate.
    ("01 00000001 31 03 00000001 ff 00", 3, 7),
    ("01 00000001 31 03 00000001 c3 00", 3, 7),
    ("01 00000001 31 03 00000002 c080 00", 3, 7),
    ("01 00000001 31 03 00000003 eda080 00", 3, 7),
    ("01 00000000 01 00000000 00000000 08 00000001 80", 3, 15),
    // Texts that are too long, whatever is there of them, and texts that the payload lacks.
    ("01 00000001 31 03 00001001", 3, 7),
    ("01 00000001 31 03 ffffffff ff", 3, 7),
    ("01 00000001 31 03 00001000", 1, 11),
    ("01 00000001 31 03 00000002 ff", 1, 12),
    // Two violations, the first one in reading order: a tag and a truth value, a truth value and a tag.
    ("01 00000002 31 04 32 02", 2, 6),
    ("01 00000002 32 02 00000000 00 31 04", 4, 6),
    // A text and a tag, a tag and a text.
    ("01 00000002 31 03 00000001 ff 34", 3, 7),
    ("01 00000002 34 31 03 00000001 ff", 2, 5),
    // A code and bytes behind, and what is cut short behind a truth value.
    ("01 00000000 01 00000000 00000000 0d 00", 2, 14),
    ("01 00000002 31 02 02", 4, 7),
    // A version and all else, an end within a turn and bytes behind.
    ("07 00000001 34", 2, 0),
    ("01 00000001 33 00000001 00000000 05 00 00", 2, 14),
];

#[test]
fn the_first_violation_is_answered(rt: HostRuntime) -> Result<(), Fail> {
    rows_are_told(rt.alloc(), Reader::Forest, &ROWS)
}
