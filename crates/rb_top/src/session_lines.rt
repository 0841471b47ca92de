// The lines of sessions.

ghost use Rattle.std.specs.Prelude.{◌≡◌, IfOk};
ghost use Rattle.rb_meaning.specs.Shown.{line};
ghost use Rattle.rb_top.specs.SessionLines as lines;
ghost use Rattle.rb_top.specs.SessionLines.{shown_cause, shown_end, shown_session};

use rb_session::{ServeCause, ServeStop, Served};
use std::alloc::{AllocError, Global};

/// Why a session was served no further.
fn cause_text(cause: &ServeCause) -> &'static str
    ensures { result.now ≡ shown_cause cause.now }
{
    match cause {
        ServeCause::ReadFault => "read fault",
        ServeCause::WriteFault => "write fault",
        ServeCause::Cut(_) => "cut",
        ServeCause::BadFrame(_) => "bad frame",
        ServeCause::SessionSpent => "spent",
        ServeCause::Memory => "out of memory",
    }
}

/// How a session ended.
fn end_text(answer: &Result<Served, ServeStop>) -> &'static str
    ensures { result.now ≡ shown_end answer.now }
{
    match answer {
        Ok(_) => "end",
        Err(stop) => cause_text(&stop.cause),
    }
}

/// How many requests were answered in a session.
fn requests_of(answer: &Result<Served, ServeStop>) -> u64
    ensures { result ≡ lines.requests_of answer.now }
{
    match answer {
        Ok(served) => served.requests,
        Err(stop) => stop.requests,
    }
}

/// The line of a session with a number that was served so.
#[tactic(auto, using(crate::proofs::Lines::pieces))]
pub fn session_line(
    alloc: Global,
    number: u64,
    answer: &Result<Served, ServeStop>,
) -> Result<Vec<u8>, AllocError>
    ensures { IfOk result (λ text. text.items ≡ line (shown_session number answer.now)) }
{
    let requests = requests_of(answer);
    let number = format!(in alloc; "{number}")?;
    let requests = format!(in alloc; "{requests}")?;
    let mut text = Vec::from_slice(alloc, b"session ")?;
    text.extend_from_slice(number.as_bytes())?;
    text.extend_from_slice(b" requests ")?;
    text.extend_from_slice(requests.as_bytes())?;
    text.extend_from_slice(b" ")?;
    text.extend_from_slice(end_text(answer).as_bytes())?;
    text.extend_from_slice(b"\n")?;
    Ok(text)
}
