// Scripts with the values of their inputs, written at the end of a buffer.

ghost use Rattle.std.specs.Prelude.{◌≡◌, ◌<◌, ◌^◌, ◌++◌, length, Ok, OnOk, OnErr};
ghost use Rattle.rb_trees.specs.mirror.Scripts.{mirror_script};
ghost use Rattle.rb_trees.specs.Validity.{verdict};
ghost use Rattle.rb_meaning_bytes.specs.formats.Payloads.{IsRequestOf};
ghost use Rattle.rb_meaning_bytes.specs.formats.ScriptBytes.{pool_of, script_bytes};
ghost use Rattle.rb_meaning_bytes.specs.formats.ScriptPayloads.{Suits};
ghost use Rattle.rb_meaning_bytes.specs.formats.FormedScripts.{FormedScript, AreInputs};
ghost use Rattle.rb_wire_fields.specs.Buffers.{Keeps};

use crate::collecting::collected;
use crate::writing::{Spelling, put_message};
use bytes::BytesMut;
use rb_trees::{Memory, Script, Value, Version};

/// Where it is answered that there was room, the pool's places are within 32 bits.
#[tactic(auto, using(rb_wire_fields::proofs::Kept::kept))]
fn put_script(
    version: Version,
    script: &Script,
    values: &[Value],
    into: &mut BytesMut,
) -> Result<(), Memory>
    ensures ok { OnOk result
        (into.new.items ≡ into.old.items ++ script_bytes version (mirror_script script.now) values.now) }
    ensures pool { OnOk result (length (pool_of version (mirror_script script.now) values.now) < 2 ^ 32) }
    ensures err { OnErr result (Keeps into.old.items into.new.items) }
{
    let texts = collected(*into.allocator(), version, script, values)?;
    if texts.len() > 4_294_967_295 {
        return Err(Memory);
    }
    let by = Spelling { version, texts };
    put_message(&by, script, values, into)
}

/// Appends the spelling of a script with the values of its inputs in a version: a valid script, without lists in
/// version 1, and as many values as it has inputs. After Memory `into` is unchanged. The format is that of
/// `specs/formats/ScriptMessages.antt` in rb_meaning_bytes.
#[tactic(auto, using(rb_wire_fields::proofs::Kept::kept))]
pub fn encode_script(
    version: Version,
    script: &Script,
    values: &[Value],
    into: &mut BytesMut,
) -> Result<(), Memory>
    requires formed { FormedScript (mirror_script script.now) }
    requires suits { Suits version (mirror_script script.now) }
    requires valid { verdict (mirror_script script.now) ≡ Ok tt }
    requires inputs { AreInputs (mirror_script script.now) values.now }
    ensures ok { OnOk result
        (into.new.items ≡ into.old.items ++ script_bytes version (mirror_script script.now) values.now) }
    ensures err { OnErr result (into.new.items ≡ into.old.items) }
    // These bytes spell the script with the values; no others do.
    ensures spelling { OnOk result (IsRequestOf version (script_bytes version (mirror_script script.now) values.now)
        (mirror_script script.now) values.now) }
{
    let len = into.len();
    match put_script(version, script, values, into) {
        Ok(()) => Ok(()),
        Err(error) => {
            into.truncate(len);
            Err(error)
        }
    }
}
