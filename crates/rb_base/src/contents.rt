// Contents that are read up to a limit.

ghost use Rattle.std.specs.Prelude.{◌≡◌, ◌+◌, ◌++◌, take, OnOk, OnErr};

use bytes::BytesMut;
use rb_trees::Memory;

/// Appends the first `limit + 1` bytes of a content, or all where it has no more.
pub fn append_front(content: &[u8], limit: usize, into: &mut BytesMut) -> Result<(), Memory>
    ensures ok { OnOk result (into.new.items ≡ into.old.items ++ take (limit + 1) content.now) }
    ensures err { OnErr result (into.new.items ≡ into.old.items) }
{
    let front = if limit < content.len() {
        &content[..limit + 1]
    } else {
        content
    };
    into.extend_from_slice(front)?;
    Ok(())
}
