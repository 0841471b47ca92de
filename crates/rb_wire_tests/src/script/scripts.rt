// Payloads of scripts, both ways.

use crate::digits::bytes_of;
use crate::payloads::{DISPUTED, OTHER, Reader, TAKEN, Told, are_spellings};
use crate::versions::version_of;
use bytes::BytesMut;
use rb_trees::{code_size, valid};
use rb_wire_script::{ScriptStop, decode_script, encode_script};
use std::alloc::Global;
use std::test::Fail;

/// The empty script.
const EMPTY: &str = "01 00 00000000";

/// A step that keeps what a method of the root gives.
const FIRST: &str = "01 00 00000001 11 00000000 0000003b 26 0000003b 01 00000001 6e 23 00000000";

/// A valid script that faults when it runs, since 7 has no negation in Bool.
const FAULTY: &str = "01 00 00000001 11 00000000 00000009 24 01 00000009 20 01 0000000000000007";

/// Three inputs, and a step and an expression of each form.
const ALL_FORMS: &str =
    "01 03 01 0000000000000005 02 01 03 00000002 c3a9 00000005 12 00000001 0000000a 00000000 00 26 0000000b 04 00000004 66696c65 23 00000001 21 00 11 00000002 0000000c 24 01 0000000d 21 01 10 00000003 0000000e 25 01 0000000f 20 01 ffffffffffffffff 20 03 00000001 61 13 00000004 00000010 20 02 00 00000001 11 00000005 00000011 22 00000000 00000000 14 00000006 00000012 00000001 01 26 00000013 08 00000002 5f31 23 00000000 00000001 10 00000007 00000014 22 00000001";

/// Payloads that are the spellings of their scripts.
static SPELLINGS: [&str; 4] = [EMPTY, FIRST, FAULTY, ALL_FORMS];

/// Each with the number of inputs, the number of steps, and the size of the code.
static VALID: [(&str, u8, usize, u64); 4] = [
    (EMPTY, 0, 0, 4),
    (FIRST, 0, 1, 29),
    (FAULTY, 0, 1, 29),
    (ALL_FORMS, 3, 5, 171),
];

/// The number of inputs, the number of steps, and the size of the code.
type Facts = (u8, usize, u64);

/// What is told of a payload that is read as a script, and the facts of the script; zeros where it isn't taken.
fn read(alloc: Global, payload: &[u8]) -> Result<(Told, Facts), Fail> {
    if payload.len() > 16_777_216 {
        return Ok((OTHER, (0, 0, 0)));
    }
    match &decode_script(alloc, payload) {
        Ok((version, script, values)) => {
            let mut again = BytesMut::new(alloc);
            encode_script(*version, script, values.as_slice(), &mut again)?;
            let facts = (script.inputs, script.body.len(), code_size(script));
            let same = again.as_slice() == payload && valid(script).is_ok();
            Ok((if same { TAKEN } else { OTHER }, facts))
        }
        Err(
            ScriptStop::Refused {
                version,
                number,
                at,
            },
        ) => {
            let told = (u32::from(*number), u64::from(*at));
            let is_own = *version == version_of(payload);
            Ok((if is_own { told } else { DISPUTED }, (0, 0, 0)))
        }
        Err(stop) => Err(Fail::new(format_args!("{stop}"))),
    }
}

/// What is told of a payload that is read as a script. A refusal has to name the payload's version.
pub fn told(alloc: Global, payload: &[u8]) -> Result<Told, Fail> {
    let (told, _facts) = read(alloc, payload)?;
    Ok(told)
}

/// Fails unless each payload is the spelling of a script with the facts beside it.
pub fn scripts_are(alloc: Global, rows: &[(&str, u8, usize, u64)]) -> Result<(), Fail> {
    for (digits, inputs, steps, code) in rows {
        let payload = bytes_of(alloc, digits)?;
        let facts = (*inputs, *steps, *code);
        if read(alloc, payload.as_slice())? != (TAKEN, facts) {
            return Err(Fail::new(format_args!("{digits}")));
        }
    }
    Ok(())
}

#[test]
fn valid_scripts_are_read_and_written(rt: HostRuntime) -> Result<(), Fail> {
    scripts_are(rt.alloc(), &VALID)
}

#[test]
fn a_payload_is_its_spelling_and_is_truncated_where_it_is_cut(rt: HostRuntime) -> Result<(), Fail> {
    are_spellings(rt.alloc(), Reader::Script, &SPELLINGS)
}
