// What came out of a hub is handed on.

ghost use Rattle.std.specs.Prelude.{◌≡◌, ◌≤◌, ◌∷◌, [], length, OnErr};
ghost use Rattle.rb_base.specs.Devices.{device};
ghost use Rattle.rb_base.specs.Sinks.{Writes};
ghost use Rattle.rb_hub.specs.Serial.{replies_in};
ghost use Rattle.rb_hub.specs.Delivering.{end_in, bytes_of, bytes_in};

use crate::events::{End, Out};
use rb_base::{Failed, Sink, write_whole};

/// How the session ended, if it did.
pub fn ended_in(outs: &[Out]) -> Option<End>
    ensures { result ≡ end_in outs.now }
{
    for out in outs {
        if let Out::Ended(_, _, end) = out {
            return Some(*end);
        }
    }
    None
}

/// How many replies came out.
pub fn count_replies(outs: &[Out]) -> u64
    ensures { result ≡ length (replies_in outs.now) }
{
    let mut count = 0;
    for out in outs {
        if let Out::Reply(..) = out {
            count += 1;
        }
    }
    count
}

/// Writes the frame of a reply.
fn write_reply<K: Sink>(sink: &mut K, out: &Out) -> Result<(), Failed>
    ensures writes { Writes (bytes_of out.now) result (device K.told K.faults sink.old) (device K.told K.faults sink.new) }
    ensures some { OnErr result (1 ≤ length (replies_in (out.now ∷ []))) }
{
    match out {
        Out::Reply(_, frame) => write_whole(sink, frame.as_slice()),
        Out::Opened(_) | Out::Ended(..) => Ok(()),
    }
}

/// Writes the frames of the replies, in order.
pub fn write_replies<K: Sink>(sink: &mut K, outs: &[Out]) -> Result<(), Failed>
    ensures writes { Writes (bytes_in outs.now) result (device K.told K.faults sink.old) (device K.told K.faults sink.new) }
    ensures some { OnErr result (1 ≤ length (replies_in outs.now)) }
{
    for out in outs {
        write_reply(sink, out)?;
    }
    Ok(())
}
