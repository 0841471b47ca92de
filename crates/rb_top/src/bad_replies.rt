// The lines of a link that failed, and of a reply that was refused.

ghost use Rattle.std.specs.Prelude.{◌≡◌, IfOk};
ghost use Rattle.std.specs.String.{string_bytes};
ghost use Rattle.rb_meaning.specs.Shown.{line};
ghost use Rattle.rb_top.specs.BadReplies.{shown_bad_reply, shown_link_fault, shown_misfit, shown_reason};

use rb_client::BadReason;
use rb_wire_forest::Misfit;
use std::alloc::{AllocError, Global};

/// What doesn't fit.
#[tactic(auto, using(crate::proofs::Lines::pieces))]
fn misfit_text(alloc: Global, misfit: &Misfit) -> Result<String, AllocError>
    ensures { IfOk result (λ text. string_bytes text ≡ shown_misfit misfit.now) }
{
    match misfit {
        Misfit::At(step) => format!(in alloc; "misfit {step}"),
        Misfit::Extra => format!(in alloc; "misfit extra"),
    }
}

/// Why a reply was refused.
#[tactic(auto, using(crate::proofs::Lines::pieces))]
fn reason_text(alloc: Global, reason: &BadReason) -> Result<String, AllocError>
    ensures { IfOk result (λ text. string_bytes text ≡ shown_reason reason.now) }
{
    match reason {
        BadReason::Cut(got) => format!(in alloc; "cut at {got}"),
        BadReason::Frame(at) => format!(in alloc; "frame at {at}"),
        BadReason::Forest(number, at) => format!(in alloc; "forest {number} at {at}"),
        BadReason::Misfit(misfit) => misfit_text(alloc, misfit),
        BadReason::Refused(number, at) => format!(in alloc; "refused {number} at {at}"),
        BadReason::Garbled => format!(in alloc; "garbled"),
    }
}

/// The line that says that the reply after so many was refused, and why.
#[tactic(auto, using(crate::proofs::Lines::pieces))]
pub fn bad_reply_line(alloc: Global, done: u64, reason: &BadReason) -> Result<Vec<u8>, AllocError>
    ensures { IfOk result (λ text. text.items ≡ line (shown_bad_reply done reason.now)) }
{
    let number = format!(in alloc; "{done}")?;
    let why = reason_text(alloc, reason)?;
    let mut text = Vec::from_slice(alloc, b"bad reply ")?;
    text.extend_from_slice(number.as_bytes())?;
    text.extend_from_slice(b" ")?;
    text.extend_from_slice(why.as_bytes())?;
    text.extend_from_slice(b"\n")?;
    Ok(text)
}

/// The line that says that the exchange after so many failed.
#[tactic(auto, using(crate::proofs::Lines::pieces))]
pub fn link_fault_line(alloc: Global, done: u64) -> Result<Vec<u8>, AllocError>
    ensures { IfOk result (λ text. text.items ≡ line (shown_link_fault done)) }
{
    let number = format!(in alloc; "{done}")?;
    let mut text = Vec::from_slice(alloc, b"link fault ")?;
    text.extend_from_slice(number.as_bytes())?;
    text.extend_from_slice(b"\n")?;
    Ok(text)
}
