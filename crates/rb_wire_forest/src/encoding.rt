// Forests, written at the end of a buffer.

ghost use Rattle.std.specs.Prelude.{◌≡◌, ◌++◌, OnOk, OnErr};
ghost use Rattle.rb_trees.specs.mirror.Forests.{mirror_node};
ghost use Rattle.rb_meaning_bytes.specs.formats.Payloads.{IsForestOf};
ghost use Rattle.rb_meaning_bytes.specs.formats.ForestBytes.{forest_bytes, FormedForest};
ghost use Rattle.rb_wire_fields.specs.Buffers.{Keeps};
ghost use Rattle.rb_wire_forest.specs.Buffers.{Appends};

use crate::writing::{put_node, version_number};
use bytes::{BufMut, BytesMut};
use rb_trees::{Memory, Node, Version};

#[tactic(auto, using(rb_wire_fields::proofs::Kept::kept))]
fn put_forest(root: &Node, version: Version, into: &mut BytesMut) -> Result<(), Memory>
    ensures ok { OnOk result (into.new.items ≡ into.old.items ++ forest_bytes version (mirror_node root.now)) }
    ensures err { OnErr result (Keeps into.old.items into.new.items) }
{
    into.put_u8(version_number(version))?;
    put_node(version, root, into)?;
    Ok(())
}

/// Appends the spelling of the forest with this root. After Memory the buffer is unchanged.
///
/// The forest is formed: at most 64 nodes are within each other, each with fewer than 2^32 entries
/// and turns; its values are primitive, with texts of at most 4,096 bytes of UTF-8; its faults have
/// a code from 1 to 12, and a text for code 8 alone.
#[tactic(auto, using(rb_wire_fields::proofs::Kept::kept, crate::proofs::Appended::appends))]
pub fn encode_forest(root: &Node, version: Version, into: &mut BytesMut) -> Result<(), Memory>
    requires { FormedForest (mirror_node root.now) }
    ensures ok { OnOk result
        (Appends (λ bytes. IsForestOf version bytes (mirror_node root.now)) into.old.items into.new.items) }
    ensures err { OnErr result (into.new.items ≡ into.old.items) }
{
    let len = into.len();
    match put_forest(root, version, into) {
        Ok(()) => Ok(()),
        Err(error) => {
            into.truncate(len);
            Err(error)
        }
    }
}
