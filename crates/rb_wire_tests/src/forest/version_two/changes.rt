// Forests of version 2 in which a byte is another one.

use crate::forest::version_two::spellings::ALL_FORMS;
use crate::payloads::{Reader, Row, changes_are_counted};
use std::test::Fail;

/// An Int, and a branch whose node has a fault.
const SMALL: &str = "02 00000002 31 01 0e 32 01 00000000 01 05 06 0b 00";

/// Forests, with how many payloads are taken in which one byte is any, and a sum of the numbers and places of all violations.
static ROWS: [Row; 2] = [
    (SMALL, 411, 3_197_245_865),
    (ALL_FORMS, 1171, 1_946_065_009),
];

#[test]
fn each_byte_may_be_any(rt: HostRuntime) -> Result<(), Fail> {
    changes_are_counted(rt.alloc(), Reader::Forest, &ROWS)
}
