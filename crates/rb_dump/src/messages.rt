// Payloads, shown field by field.

ghost use Rattle.std.specs.Prelude.{◌≡◌, ◌-◌, ◌≤◌, length, drop, take, IfOk, IsTrue, IsFalse, OnOk};
ghost use Rattle.rb_dump.specs.Verdicts.{Judges, IsTaken, IsShownAs};

use crate::fields::Message;
use crate::reader::Reader;
use crate::verdicts::{Verdict, judge, readable};
use crate::walk::Walk;
use rb_trees::{Memory, Seq};
use std::alloc::Global;

/// Shows the fields of a message, as far as they can be read before an offset.
fn show_fields(
    alloc: Global,
    walk: &mut Walk<'_>,
    message: Message,
    end: usize,
    depth: u32,
) -> Result<(), Memory>
    requires from { walk.old.at ≤ end }
    requires within { end ≤ length walk.old.bytes }
    ensures bytes { walk.new.bytes ≡ walk.old.bytes }
    ensures at { OnOk result (walk.new.at ≤ end) }
{
    let mut reader = Reader::new(alloc, message, depth)?;
    'fields: while let Some(todo) = reader.next()? {
        let bytes = walk.up_to(end);
        let Some(found) = reader.read(todo, bytes)? else {
            return Ok(());
        };
        let count = bytes.len() - found.rest.len();
        walk.add(count, todo.depth, found.what)?;
    }
    Ok(())
}

/// Shows bytes up to an offset as such that aren't read.
pub(crate) fn show_unread(
    alloc: Global,
    walk: &mut Walk<'_>,
    end: usize,
    depth: u32,
) -> Result<(), Memory>
    requires from { walk.old.at ≤ end }
    requires within { end ≤ length walk.old.bytes }
    ensures bytes { walk.new.bytes ≡ walk.old.bytes }
    ensures at { OnOk result (walk.new.at ≡ end) }
{
    let at = walk.at();
    if at < end {
        walk.add(end - at, depth, Seq::from_slice(alloc, b"not read")?)?;
    }
    Ok(())
}

/// Shows a payload up to an offset, which is to be such a message, and answers what is told of it.
pub(crate) fn show_payload(
    alloc: Global,
    walk: &mut Walk<'_>,
    message: Message,
    end: usize,
    depth: u32,
) -> Result<Verdict, Memory>
    requires from { walk.old.at ≤ end }
    requires within { end ≤ length walk.old.bytes }
    ensures bytes { walk.new.bytes ≡ walk.old.bytes }
    ensures at { OnOk result (walk.new.at ≡ end) }
    ensures verdict { IfOk result (Judges message walk.old.at (take (end - walk.old.at) (drop walk.old.at walk.old.bytes))) }
{
    let start = walk.at();
    let verdict = judge(alloc, message, walk.up_to(end), start)?;
    show_fields(alloc, walk, message, readable(verdict, start, end), depth)?;
    show_unread(alloc, walk, end, depth)?;
    Ok(verdict)
}

/// Whether a payload spells such a message.
fn is_taken(alloc: Global, message: Message, payload: &[u8]) -> Result<bool, Memory>
    ensures yes { IfOk result (λ taken. IsTrue taken → IsTaken message payload.now) }
    ensures no { IfOk result (λ taken. IsFalse taken → ¬ IsTaken message payload.now) }
{
    match judge(alloc, message, payload, 0)? {
        Verdict::Whole => Ok(true),
        _ => Ok(false),
    }
}

/// How many fields of a payload can be read as such a message.
fn fields_of(alloc: Global, message: Message, payload: &[u8]) -> Result<usize, Memory> {
    let verdict = judge(alloc, message, payload, 0)?;
    let mut walk = Walk::new(alloc, payload);
    let end = readable(verdict, 0, payload.len());
    show_fields(alloc, &mut walk, message, end, 0)?;
    Ok(walk.count())
}

/// What a payload is shown as that spells no message: a forest where more of its fields can be read as such, else a script.
fn likely(alloc: Global, payload: &[u8]) -> Result<Message, Memory> {
    let script = fields_of(alloc, Message::Script, payload)?;
    let forest = fields_of(alloc, Message::Forest, payload)?;
    if script < forest {
        Ok(Message::Forest)
    } else {
        Ok(Message::Script)
    }
}

/// What a payload is shown as.
#[tactic(auto, using(crate::proofs::Taken::shown))]
pub(crate) fn message_of(alloc: Global, payload: &[u8]) -> Result<Message, Memory>
    ensures { IfOk result (IsShownAs payload.now) }
{
    if is_taken(alloc, Message::Script, payload)? {
        return Ok(Message::Script);
    }
    if is_taken(alloc, Message::Forest, payload)? {
        return Ok(Message::Forest);
    }
    if is_taken(alloc, Message::Refusal, payload)? {
        return Ok(Message::Refusal);
    }
    likely(alloc, payload)
}
