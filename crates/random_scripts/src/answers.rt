// What payloads are read as.

use crate::sum::Sum;
use bytes::BytesMut;
use rb_trees::{Memory, Version, code_size, valid};
use rb_wire_script::{ScriptStop, decode_script, encode_script};
use std::alloc::Global;

/// The most bytes of a payload.
const MOST: usize = 16_777_216;

/// The number of a script that is valid, and whose spelling is the payload.
pub const SCRIPT: u8 = 0;

/// The number of what mustn't come: a script that isn't valid, or has another spelling than the payload.
/// No refusal has it, since what is too deep isn't in the format.
pub const WRONG: u8 = 14;

/// The word that stands for a version in a sum.
fn word_of(version: Version) -> u32 {
    match version {
        Version::One => 1,
        Version::Two => 2,
    }
}

/// The number of the refusal of a payload, `SCRIPT` or `WRONG`. What it is read as is added to the sum: its version and
/// a script with its inputs and the size of its code, or the number and the place of a refusal.
pub fn answer_to(alloc: Global, payload: &[u8], sum: &mut Sum) -> Result<u8, Memory> {
    if payload.len() > MOST {
        return Ok(WRONG);
    }
    match decode_script(alloc, payload) {
        Ok((version, script, values)) => {
            sum.add(word_of(version));
            sum.add_script(&script, &values);
            sum.add((code_size(&script) % 4_294_967_296) as u32);
            let mut again = BytesMut::new(alloc);
            encode_script(version, &script, values.as_slice(), &mut again)?;
            if valid(&script).is_ok() && again.as_slice() == payload {
                return Ok(SCRIPT);
            }
            Ok(WRONG)
        }
        Err(
            ScriptStop::Refused {
                version,
                number,
                at,
            },
        ) => {
            sum.add(word_of(version));
            sum.add(u32::from(number));
            sum.add(at);
            Ok(number)
        }
        Err(ScriptStop::Memory) => Err(Memory),
    }
}
