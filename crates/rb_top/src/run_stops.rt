// What is said behind the lines of a run over a link that was cut off.

ghost use Rattle.rb_meaning.specs.Shown.{line};
ghost use Rattle.rb_top.specs.BadReplies.{shown_bad_reply, shown_link_fault};
ghost use Rattle.rb_top.specs.Ends.{Ends};
ghost use Rattle.rb_top.specs.LinkRuns.{SaysStop};
ghost use Rattle.rb_top.specs.Scene.{output, Across};
ghost use Rattle.rb_top.specs.declared.status.Status.TheVariants.{BadReply, LinkFault};

use crate::bad_replies::{bad_reply_line, link_fault_line};
use crate::saying::say;
use crate::status::Status;
use rb_base::Sink;
use rb_client::{BadReason, RunStop};
use rb_trees::Seq;
use std::alloc::Global;

/// Says that the exchange after so many failed.
fn say_link_fault<W: Sink>(alloc: Global, done: u64, out: &mut W) -> Status
    ensures { Ends (LinkFault done) (line (shown_link_fault done)) result (output W.Sink out.old) (output W.Sink out.new) }
{
    match link_fault_line(alloc, done) {
        Ok(line) => say(Status::LinkFault(done), line.as_slice(), out),
        Err(_) => Status::Memory,
    }
}

/// Says that the reply after so many was refused, and why. Its kind and its bytes are kept.
fn say_bad_reply<W: Sink>(
    alloc: Global,
    done: u64,
    reason: BadReason,
    kind: u8,
    bytes: Seq<u8>,
    out: &mut W,
) -> Status
    ensures { let said = line (shown_bad_reply done reason) in
        Ends (BadReply done reason kind bytes) said result (output W.Sink out.old) (output W.Sink out.new) }
{
    match bad_reply_line(alloc, done, &reason) {
        Ok(line) => {
            let status = Status::BadReply {
                done,
                reason,
                kind,
                bytes,
            };
            say(status, line.as_slice(), out)
        }
        Err(_) => Status::Memory,
    }
}

/// Says why a run over a link was cut off, behind its lines.
pub fn say_stop<W: Sink>(alloc: Global, stop: RunStop, out: &mut W) -> Status
    ensures { Across W.Sink out.old out.new (SaysStop stop result) }
{
    match stop {
        RunStop::LinkFault(done) => say_link_fault(alloc, done, out),
        RunStop::BadReply {
            done,
            reason,
            kind,
            bytes,
        } => say_bad_reply(alloc, done, reason, kind, bytes, out),
        RunStop::WriteFault => Status::WriteFault,
        RunStop::Memory => Status::Memory,
    }
}
