// Payloads of valid scripts in version 2.

use crate::payloads::{Reader, are_spellings};
use crate::script::scripts::scripts_are;
use std::test::Fail;

/// The empty script.
const EMPTY: &str = "02 00 00 00";

/// A step that keeps what a method of the root gives.
pub const FIRST: &str = "02 01 01 6e 00 01 11 00 3b 26 3b 01 00 23 00";

/// A valid script that faults when it runs, since 7 has no negation in Bool.
const FAULTY: &str = "02 00 00 01 11 00 09 24 01 09 20 01 0e";

/// A list without items, which nothing goes over.
const UNUSED: &str = "02 00 01 04 00 00";

/// A method's value for each item of a list.
pub const OVER: &str =
    "02 01 04 66 69 6c 65 01 04 02 01 00 01 02 01 15 00 00 00 00 01 11 01 00 26 00 04 00 23 01 22 00";

/// Steps over two lists, within each other, of which the outer one goes over the second list.
const WITHIN: &str =
    "02 00 02 04 02 01 02 01 04 04 01 01 06 01 15 00 01 00 01 01 15 01 02 01 00 01 11 02 03 25 01 03 22 00 22 01";

/// A text that is a value, a literal and the name of a method.
const SHARED: &str =
    "02 01 04 73 69 7a 65 01 03 00 01 11 00 00 25 06 00 20 03 00 26 00 03 00 23 01 20 03 00";

/// The greatest numbers, and the least and the greatest Int.
const GREAT: &str =
    "02 00 02 01 ff ff ff ff ff ff ff ff ff 01 01 fe ff ff ff ff ff ff ff ff 01 01 12 ff ff ff ff 0f ff ff ff ff 0f ff ff ff ff 0f 01 21 01";

/// Four inputs, the last one a list, and a step and an expression of each form.
pub const ALL_FORMS: &str =
    "02 04 02 c3 a9 04 66 69 6c 65 01 61 02 5f 31 04 01 0a 02 01 03 00 04 04 01 02 02 01 03 00 01 d7 04 06 12 01 0a 00 00 26 0b 04 01 23 01 21 00 11 02 0c 24 01 0d 21 01 10 03 0e 25 01 0f 20 01 01 20 03 02 13 04 10 20 02 00 01 11 05 11 22 00 00 14 06 12 01 01 26 13 08 03 23 00 01 10 07 14 22 01 15 08 ac 02 02 03 01 11 09 15 22 02";

/// Payloads that are the spellings of their scripts.
static SPELLINGS: [&str; 9] = [
    EMPTY, FIRST, FAULTY, UNUSED, OVER, WITHIN, SHARED, GREAT, ALL_FORMS,
];

/// Each with the number of inputs, the number of steps, and the size of the code.
static VALID: [(&str, u8, usize, u64); 9] = [
    (EMPTY, 0, 0, 4),
    (FIRST, 0, 1, 29),
    (FAULTY, 0, 1, 29),
    (UNUSED, 1, 0, 4),
    (OVER, 1, 1, 55),
    (WITHIN, 2, 1, 65),
    (SHARED, 1, 1, 58),
    (GREAT, 2, 1, 20),
    (ALL_FORMS, 4, 6, 203),
];

#[test]
fn valid_scripts_are_read_and_written(rt: HostRuntime) -> Result<(), Fail> {
    scripts_are(rt.alloc(), &VALID)
}

#[test]
fn a_payload_is_its_spelling_and_is_truncated_where_it_is_cut(rt: HostRuntime) -> Result<(), Fail> {
    are_spellings(rt.alloc(), Reader::Script, &SPELLINGS)
}
