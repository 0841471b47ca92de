// The lines of what comes out of a hub, and of the events that it refuses.

ghost use Rattle.std.specs.Prelude.{◌≡◌, IfOk};
ghost use Rattle.std.specs.String.{string_bytes};
ghost use Rattle.rb_meaning.specs.Shown.{line};
ghost use Rattle.rb_hub_lines.specs.Shown.{shown_cause, shown_end, shown_out, shown_refusal};

use hex::encode;
use rb_hub::{End, HubRefusal, Out};
use std::alloc::{AllocError, Global};

/// How a session ended.
fn end_text(end: End) -> &'static str
    ensures { result.now ≡ shown_end end }
{
    match end {
        End::Whole => "end",
        End::Cut(_) => "cut",
        End::BadFrame(_) => "bad frame",
        End::Spent => "spent",
    }
}

/// What came out of a hub.
#[tactic(auto, using(crate::proofs::Pieces::pieces))]
fn out_words(alloc: Global, out: &Out) -> Result<String, AllocError>
    ensures { IfOk result (λ text. string_bytes text ≡ shown_out out.now) }
{
    match out {
        Out::Opened(number) => format!(in alloc; "opened {number}"),
        Out::Reply(number, frame) => {
            let digits = encode(alloc, frame.as_slice())?;
            format!(in alloc; "reply {number} {digits}")
        }
        Out::Ended(number, requests, end) => {
            let end = end_text(*end);
            format!(in alloc; "ended {number} requests {requests} {end}")
        }
    }
}

/// The line of what came out of a hub.
pub fn out_line(alloc: Global, out: &Out) -> Result<String, AllocError>
    ensures { IfOk result (λ text. string_bytes text ≡ line (shown_out out.now)) }
{
    let mut text = out_words(alloc, out)?;
    text.push_str("\n")?;
    Ok(text)
}

/// Why an event was refused.
fn cause_text(refusal: HubRefusal) -> &'static str
    ensures { result.now ≡ shown_cause refusal }
{
    match refusal {
        HubRefusal::UnknownSession => "unknown session",
        HubRefusal::Crowded => "crowded",
        HubRefusal::Numbers => "numbers",
        HubRefusal::Over => "over",
    }
}

/// That an event was refused, by its number among all events, from 1.
#[tactic(auto, using(crate::proofs::Pieces::pieces))]
fn refusal_words(alloc: Global, number: u64, refusal: HubRefusal) -> Result<String, AllocError>
    ensures { IfOk result (λ text. string_bytes text ≡ shown_refusal number refusal) }
{
    let cause = cause_text(refusal);
    format!(in alloc; "event {number} {cause}")
}

/// The line of an event that was refused, by its number among all events, from 1.
pub fn refusal_line(alloc: Global, number: u64, refusal: HubRefusal) -> Result<String, AllocError>
    ensures { IfOk result (λ text. string_bytes text ≡ line (shown_refusal number refusal)) }
{
    let mut text = refusal_words(alloc, number, refusal)?;
    text.push_str("\n")?;
    Ok(text)
}
