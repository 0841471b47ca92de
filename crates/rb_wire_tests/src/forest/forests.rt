// Payloads that spell forests.

use crate::payloads::{DISPUTED, OTHER, Reader, TAKEN, Told, are_spellings};
use crate::versions::version_of;
use bytes::BytesMut;
use rb_wire_forest::{ForestRefusal, ForestStop, decode_forest, encode_forest, scan_forest};
use std::alloc::Global;
use std::test::Fail;

/// A node within each form of entry, a value of each form, and both ends of a node.
pub const ALL_FORMS: &str =
    "01 00000003 31 01 0000000000000007 32 01 00000001 31 02 00 00 33 00000002 00000001 31 03 00000002 c3a9 00 00000000 01 00000003 00000004 08 00000003 426967 01 00000009 0000000a 07";

/// Forests: without an entry; the replies to a kept call, and to a script that faults; the greatest numbers; a text without
/// bytes; rows without a turn, and a fault behind them; a thrown text without bytes, and the first and the last code.
static FORESTS: [&str; 11] = [
    "01 00000000 00",
    "01 00000001 31 01 0000000000000007 00",
    "01 00000000 01 00000000 00000009 0c",
    "01 00000002 31 01 8000000000000000 31 02 01 01 ffffffff ffffffff 09",
    "01 00000001 31 03 00000000 00",
    "01 00000001 33 00000000 01 00000002 0000003c 07",
    "01 00000000 01 00000001 00000002 08 00000000",
    "01 00000000 01 00000001 00000002 01",
    "01 00000002 32 00 00000000 00 32 01 00000000 01 00000005 00000006 0b 00",
    "01 00000001 33 00000001 00000001 33 00000001 00000001 31 02 01 00 00 00",
    ALL_FORMS,
];

/// What a scan tells of a payload.
fn scanned(payload: &[u8]) -> Told {
    match scan_forest(payload) {
        Ok(_) => TAKEN,
        Err(ForestRefusal { number, at }) => (u32::from(number), at),
    }
}

/// What a decoder tells of a payload.
fn decoded(alloc: Global, payload: &[u8]) -> Result<Told, Fail> {
    match &decode_forest(alloc, payload) {
        Ok(root) => {
            let mut again = BytesMut::new(alloc);
            encode_forest(root, version_of(payload), &mut again)?;
            let same = again.as_slice() == payload;
            Ok(if same { TAKEN } else { OTHER })
        }
        Err(ForestStop::Refused { number, at }) => Ok((u32::from(*number), *at)),
        Err(stop) => Err(Fail::new(format_args!("{stop}"))),
    }
}

/// What is told of a payload that is read as a forest. A scan and a decoder have to tell the same.
pub fn told(alloc: Global, payload: &[u8]) -> Result<Told, Fail> {
    let decoded = decoded(alloc, payload)?;
    let same = scanned(payload) == decoded;
    Ok(if same { decoded } else { DISPUTED })
}

#[test]
fn a_forest_is_its_spelling_and_is_truncated_where_it_is_cut(rt: HostRuntime) -> Result<(), Fail> {
    are_spellings(rt.alloc(), Reader::Forest, &FORESTS)
}
