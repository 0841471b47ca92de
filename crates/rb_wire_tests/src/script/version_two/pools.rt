// Pools of texts, in payloads of version 2.

use crate::payloads::{Reader, Row, rows_are_told};
use std::test::Fail;

/// Payloads, each with the number and the place of its refusal, 0 where it is taken.
static ROWS: [Row; 43] = [
    // A text, twice used; two, in the order of their use; and a name and a value at one place.
    ("02 01 01 61 02 03 00 03 00 00", 0, 0),
    ("02 02 01 61 01 62 03 03 00 03 01 03 00 00", 0, 0),
    ("02 01 01 6e 01 03 00 01 10 00 00 26 00 00 00 23 00", 0, 0),
    // A text without bytes, two that differ in their last byte, and one that begins another.
    ("02 01 00 01 03 00 00", 0, 0),
    ("02 02 02 61 61 02 61 62 02 03 00 03 01 00", 0, 0),
    ("02 03 02 61 61 01 61 00 03 03 00 03 01 03 02 00", 0, 0),
    // A text that equals an earlier one: the next, a later one, without bytes; the first of two is told.
    ("02 02 01 61 01 61 02 03 00 03 01 00", 7, 4),
    ("02 03 01 61 01 62 01 61 00 00", 7, 6),
    ("02 02 00 00 00 00", 7, 3),
    ("02 04 01 61 01 62 01 62 01 61 00 00", 7, 6),
    // Texts that aren't UTF-8, a text of which bytes lack, and one that is cut short behind a text that stands twice.
    ("02 01 01 ff", 3, 2),
    ("02 02 01 61 02 c3 28", 3, 4),
    ("02 02 01 61 02 61", 1, 6),
    ("02 03 01 61 01 61 05", 7, 4),
    // A text that isn't UTF-8 and one that stands twice, and the other way round.
    ("02 03 01 61 01 ff 01 61", 3, 4),
    ("02 03 01 61 01 61 01 ff", 7, 4),
    // A place beyond the pool: of none, of one.
    ("02 00 01 03 00", 7, 4),
    ("02 01 01 61 02 03 00 03 01 00", 7, 8),
    ("02 01 01 61 01 03 ff ff ff ff 0f 00", 7, 6),
    // A place whose earlier texts weren't used.
    ("02 02 01 61 01 62 02 03 01 03 00 00", 7, 8),
    ("02 03 01 61 01 62 01 63 03 03 00 03 02 03 01 00", 7, 12),
    (
        "02 02 01 61 01 6e 00 01 10 00 00 26 00 00 01 23 01 20 03 00",
        7,
        14,
    ),
    // The order of use is that of reading: a call's name comes before its receiver and its arguments.
    (
        "02 02 01 6e 01 61 00 01 10 00 00 26 00 00 00 23 01 20 03 01",
        0,
        0,
    ),
    (
        "02 02 01 61 01 6e 00 01 10 00 00 26 00 00 01 20 03 00 00",
        7,
        14,
    ),
    (
        "02 02 01 61 01 62 00 02 10 00 00 20 03 00 10 01 00 20 03 01",
        0,
        0,
    ),
    // Texts that nothing uses: the place is behind the message.
    ("02 01 01 61 00 00", 7, 6),
    ("02 02 01 61 01 62 01 03 00 00", 7, 10),
    ("02 01 01 61 00 01 10 00 00 23", 7, 10),
    // The same with bytes behind the message, and with a message that is cut short.
    ("02 01 01 61 00 00 00", 7, 6),
    ("02 02 01 61 01 62 01 03 00 00 ff ff", 7, 10),
    ("02 01 01 61 00", 1, 5),
    ("02 01 01 61 00 01", 1, 6),
    // A name's place with a text that is none: without bytes, a digit first, a space, no ASCII.
    ("02 01 00 00 01 10 00 00 26 00 00 00 23 00", 3, 11),
    ("02 01 02 31 61 00 01 10 00 00 26 00 00 00 23 00", 3, 13),
    ("02 01 03 61 20 62 00 01 10 00 00 26 00 00 00 23 00", 3, 14),
    ("02 01 02 c3 a9 00 01 10 00 00 26 00 00 00 23 00", 3, 13),
    ("02 01 01 2d 01 03 00 01 10 00 00 26 00 00 00 23 00", 3, 14),
    // At one place 7 comes before 3: a place beyond the pool, and one that comes too early, of a text that is no name.
    ("02 01 01 2d 00 01 10 00 00 26 00 00 01 23 00", 7, 12),
    ("02 02 01 61 01 2d 00 01 10 00 00 26 00 00 01 23 00", 7, 14),
    // A needless group of a place comes before all else there.
    ("02 01 01 61 01 03 81 00 00", 4, 6),
    // Items of lists use texts too.
    ("02 02 01 61 01 62 01 04 03 03 00 03 01 03 00 00", 0, 0),
    ("02 02 01 61 01 62 01 04 02 03 01 03 00 00", 7, 10),
    ("02 01 01 61 01 04 01 03 01 00", 7, 8),
];

#[test]
fn texts_stand_once_and_in_the_order_of_their_use(rt: HostRuntime) -> Result<(), Fail> {
    rows_are_told(rt.alloc(), Reader::Script, &ROWS)
}
