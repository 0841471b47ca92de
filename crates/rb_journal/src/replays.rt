// A payload of a journal, performed once more.

ghost use Rattle.std.specs.Prelude.{◌≡◌, ◌≤◌, length, IfOk, OnOk};
ghost use Rattle.rb_session.specs.Answering.{IsTypedHost};
ghost use Rattle.rb_journal.specs.Replays.{Tries};

use bytes::BytesMut;
use rb_exec::Host;
use rb_session::{perform, read_request};
use rb_trees::Memory;
use std::alloc::Global;

/// Performs a payload, if it is accepted, and drops the reply. It answers whether it is.
pub fn replay(alloc: Global, host: &mut Host, payload: &[u8]) -> Result<bool, Memory>
    requires size { length payload.now ≤ 16777216 }
    requires typed { IsTypedHost host.old }
    ensures tries { IfOk result (λ is. Tries is host.old payload.now host.new) }
    ensures typed { OnOk result (IsTypedHost host.new) }
    ensures service { host.new.service ≡ host.old.service }
{
    let mut reply = BytesMut::new(alloc);
    match read_request(alloc, payload, &mut reply)? {
        None => Ok(false),
        Some(ready) => {
            perform(alloc, host, ready, &mut reply)?;
            Ok(true)
        }
    }
}
