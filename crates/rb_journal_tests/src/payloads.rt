// Payloads for a journal.

ghost use Rattle.std.specs.Prelude.{OnOk};
ghost use Rattle.rb_journal.specs.Form.{IsPayload};

use rb_wire_script::decode_script;
use std::alloc::Global;
use std::test::Fail;

/// A script of no step.
pub const EMPTY: &[u8] = b"\x01\x00\x00\x00\x00\x00";

/// A script whose one step calls `up` of the root.
pub const UP: &[u8] =
    b"\x01\x00\x00\x00\x00\x01\x10\x00\x00\x00\x00\x00\x00\x00\x00\x26\x00\x00\x00\x00\x00\x00\x00\x00\x02up\x23\x00\x00\x00\x00";

/// Fails where a journal doesn't take the payload.
pub fn expect_payload(alloc: Global, payload: &[u8]) -> Result<(), Fail>
    ensures { OnOk result (IsPayload payload.now) }
{
    if payload.len() > 16_777_216 {
        return Err(Fail::new("the payload is too long"));
    }
    match decode_script(alloc, payload) {
        Ok(_) => Ok(()),
        Err(_) => Err(Fail::new("the payload is no valid script")),
    }
}

/// Fails where other bytes are found than are wanted.
pub fn expect_bytes(found: &[u8], want: &[u8]) -> Result<(), Fail> {
    if found == want {
        Ok(())
    } else {
        Err(Fail::new(format_args!("{found:?} in place of {want:?}")))
    }
}
