// Payloads of version 2 that spell forests.

use crate::payloads::{Reader, are_spellings};
use std::test::Fail;

/// A node within each form of entry, a value of each form, and both ends of a node.
pub const ALL_FORMS: &str =
    "02 00000003 31 01 0e 32 01 00000001 31 02 00 00 33 00000002 00000001 31 03 02 c3a9 00 00000000 01 03 04 08 03 426967 01 09 0a 07";

/// Forests: without an entry; the replies to a kept call, and to a script that faults; the greatest numbers; a text without
/// bytes; rows without a turn, and a fault behind them; a thrown text without bytes, and the first code; branches; rows
/// within rows; Ints of one byte, of ten and of two; numbers of a fault in two groups and in three.
static FORESTS: [&str; 14] = [
    "02 00000000 00",
    "02 00000001 31 01 0e 00",
    "02 00000000 01 00 09 0c",
    "02 00000002 31 01 ff ff ff ff ff ff ff ff ff 01 31 02 01 01 ff ff ff ff 0f ff ff ff ff 0f 09",
    "02 00000001 31 03 00 00",
    "02 00000001 33 00000000 01 02 3c 07",
    "02 00000000 01 01 02 08 00",
    "02 00000000 01 01 02 01",
    "02 00000002 32 00 00000000 00 32 01 00000000 01 05 06 0b 00",
    "02 00000001 33 00000001 00000001 33 00000001 00000001 31 02 01 00 00 00",
    "02 00000002 31 01 00 31 01 01 00",
    "02 00000002 31 01 fe ff ff ff ff ff ff ff ff 01 31 01 80 01 00",
    "02 00000000 01 ac 02 80 80 04 07",
    ALL_FORMS,
];

#[test]
fn a_forest_is_its_spelling_and_is_truncated_where_it_is_cut(rt: HostRuntime) -> Result<(), Fail> {
    are_spellings(rt.alloc(), Reader::Forest, &FORESTS)
}
