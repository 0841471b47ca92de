// Refusals as bytes, both ways.

use crate::payloads::{OTHER, Reader, Row, TAKEN, Told, rows_are_told};
use crate::versions::version_of;
use bytes::BytesMut;
use rb_trees::{Memory, Version};
use rb_wire_forest::{decode_refusal, encode_refusal};
use std::alloc::Global;
use std::test::Fail;

/// Payloads with the number and the place of the refusal that they spell, 0 where they spell none.
static ROWS: [Row; 21] = [
    ("01 01 00000005", 1, 5),
    ("01 02 00000000", 2, 0),
    ("01 03 00000102", 3, 258),
    ("01 04 01020304", 4, 16_909_060),
    ("01 05 00000382", 5, 898),
    ("01 06 00000006", 6, 6),
    ("01 0b 00000001", 11, 1),
    ("01 0c 00000000", 12, 0),
    ("01 0d ffffffff", 13, 4_294_967_295),
    ("01 00 00000006", 0, 0),
    ("01 07 00000006", 0, 0),
    ("01 0a 00000006", 0, 0),
    ("01 0e 00000006", 0, 0),
    ("01 ff 00000006", 0, 0),
    ("00 01 00000006", 0, 0),
    ("02 01 00000006", 0, 0),
    ("", 0, 0),
    ("01", 0, 0),
    ("01 01 000000", 0, 0),
    ("01 01 00000005 00", 0, 0),
    ("01 00000000 00", 0, 0),
];

/// Appends the spelling of a refusal in a version that has its number.
fn spell(version: Version, number: u8, at: u32, into: &mut BytesMut) -> Result<(), Memory> {
    match version {
        Version::One => {
            if (number >= 1 && number <= 6) || (number >= 11 && number <= 13) {
                encode_refusal(number, at, Version::One, into)?;
            }
        }
        Version::Two => {
            if (number >= 1 && number <= 8) || (number >= 11 && number <= 13) || number == 15 {
                encode_refusal(number, at, Version::Two, into)?;
            }
        }
    }
    Ok(())
}

/// The refusal of a payload, which has to be its spelling.
pub fn told(alloc: Global, payload: &[u8]) -> Result<Told, Fail> {
    let Some((number, at)) = decode_refusal(payload) else {
        return Ok(TAKEN);
    };
    let mut again = BytesMut::new(alloc);
    spell(version_of(payload), number, at, &mut again)?;
    let same = number == 0 || again.as_slice() == payload;
    Ok(if same {
        (u32::from(number), u64::from(at))
    } else {
        OTHER
    })
}

#[test]
fn refusals_are_read_and_spelled(rt: HostRuntime) -> Result<(), Fail> {
    rows_are_told(rt.alloc(), Reader::Refusal, &ROWS)
}
