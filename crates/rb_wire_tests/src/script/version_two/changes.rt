// Payloads of version 2 in which a byte is another one.

use crate::payloads::{Reader, Row, changes_are_counted};
use crate::script::version_two::spellings::{ALL_FORMS, FIRST, OVER};
use std::test::Fail;

/// Scripts, with how many payloads are taken in which one byte is any, and a sum of the numbers and places of all refusals.
static ROWS: [Row; 3] = [
    (FIRST, 457, 2_181_664_426),
    (OVER, 1169, 2_725_408_650),
    (ALL_FORMS, 4226, 3_676_566_179),
];

#[test]
fn each_byte_may_be_any(rt: HostRuntime) -> Result<(), Fail> {
    changes_are_counted(rt.alloc(), Reader::Script, &ROWS)
}
