// What the decoders say of payloads.

ghost use Rattle.std.specs.Prelude.{◌≡◌, ◌≤◌, length, IfOk};
ghost use Rattle.rb_dump.specs.Verdicts.{Judges, IsTaken, first};

use crate::fields::Message;
use rb_trees::Memory;
use rb_wire_fields::stop::{TOO_MANY_ITEMS, TRUNCATED};
use rb_wire_forest::{decode_refusal, scan_forest};
use rb_wire_script::{ScriptStop, decode_script};
use std::alloc::Global;

/// How many bytes a script may have.
pub(crate) const LONGEST: usize = 16_777_216;

/// What isn't taken first: of payloads by what their decoders say, or of the frames or the journal around them.
#[derive(Clone, Copy, Debug, PartialEq, Eq)]
pub enum Verdict {
    /// All is taken.
    Whole,
    /// The payload that begins at this offset isn't taken: the number of its first refusal, and its place in the payload. From
    /// 11 on the place is the number of a step.
    Refused { payload: usize, number: u8, at: u64 },
    /// The payload that begins at this offset spells no refusal.
    NoRefusal { payload: usize },
    /// The payload that begins at this offset has more than 16,777,216 bytes.
    TooLong { payload: usize },
    /// A byte breaks the form of a frame at this offset.
    BadFrame { at: usize },
    /// The frame that begins at this offset isn't there whole.
    CutFrame { at: usize },
    /// The bytes don't begin with the head of a journal and a gate.
    NoJournal,
    /// At this offset a journal lacks a gate, or an open gate stands without a record behind it.
    BadRecord { at: usize },
}

/// The first of two verdicts that says of something that it isn't taken.
pub(crate) fn first_of(earlier: Verdict, later: Verdict) -> Verdict
    ensures { result ≡ first earlier later }
{
    match earlier {
        Verdict::Whole => later,
        _ => earlier,
    }
}

/// What is told of a payload that begins at an offset and is to be a script.
fn judge_script(alloc: Global, payload: &[u8], start: usize) -> Result<Verdict, Memory>
    ensures told { IfOk result (Judges Message.Script start payload.now) }
    ensures taken { IfOk result (λ v. IsTaken Message.Script payload.now → v ≡ Verdict.Whole) }
{
    if payload.len() > LONGEST {
        return Ok(Verdict::TooLong { payload: start });
    }
    match decode_script(alloc, payload) {
        Ok(_) => Ok(Verdict::Whole),
        Err(ScriptStop::Refused { number, at, .. }) => Ok(Verdict::Refused {
            payload: start,
            number,
            at: u64::from(at),
        }),
        Err(ScriptStop::Memory) => Err(Memory),
    }
}

/// What is told of a payload that begins at an offset and is to be a forest.
fn judge_forest(payload: &[u8], start: usize) -> Verdict
    ensures told { Judges Message.Forest start payload.now result }
    ensures taken { IsTaken Message.Forest payload.now → result ≡ Verdict.Whole }
{
    match scan_forest(payload) {
        Ok(_) => Verdict::Whole,
        Err(refusal) => Verdict::Refused {
            payload: start,
            number: refusal.number,
            at: refusal.at,
        },
    }
}

/// What is told of a payload that begins at an offset and is to be a refusal.
fn judge_refusal(payload: &[u8], start: usize) -> Verdict
    ensures told { Judges Message.Refusal start payload.now result }
    ensures taken { IsTaken Message.Refusal payload.now → result ≡ Verdict.Whole }
{
    match decode_refusal(payload) {
        Some(_) => Verdict::Whole,
        None => Verdict::NoRefusal { payload: start },
    }
}

/// What is told of a payload that begins at an offset and is to be such a message.
pub(crate) fn judge(
    alloc: Global,
    message: Message,
    payload: &[u8],
    start: usize,
) -> Result<Verdict, Memory>
    ensures told { IfOk result (Judges message start payload.now) }
    ensures taken { IfOk result (λ v. IsTaken message payload.now → v ≡ Verdict.Whole) }
{
    match message {
        Message::Script => judge_script(alloc, payload, start),
        Message::Forest => Ok(judge_forest(payload, start)),
        Message::Refusal => Ok(judge_refusal(payload, start)),
    }
}

/// Up to which offset the fields of a payload between two can be read: where it is refused, else its end.
pub(crate) fn readable(verdict: Verdict, start: usize, end: usize) -> usize
    requires { start ≤ end }
    ensures from { start ≤ result }
    ensures within { result ≤ end }
{
    match verdict {
        Verdict::Refused { number, at, .. } if number > TRUNCATED && number <= TOO_MANY_ITEMS => {
            let size = (end - start) as u64;
            start + at.min(size) as usize
        }
        Verdict::TooLong { .. } => start,
        _ => end,
    }
}
