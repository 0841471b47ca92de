// The lines of refusals by admission.
#![tactic(auto, using(crate::proofs::Lines::pieces))]

ghost use Rattle.std.specs.Prelude.{◌≡◌, ◌++◌, OnOk, IfOk};
ghost use Rattle.std.specs.String.{string_bytes};
ghost use Rattle.rb_meaning.specs.Shown.{line};
ghost use Rattle.rb_top.specs.BatchRefusals as words;
ghost use Rattle.rb_top.specs.BatchRefusals.{batch_heading, positions, spaced_place, spaced_places, shown_batch_refusal};
ghost use Rattle.rb_top.specs.Texts.{WithinLength};

use crate::refusals::place_found;
use rb_places::Places;
use rb_trees::{Memory, Refusal};
use std::alloc::{AllocError, Global};

/// The number and the name of a refusal.
fn batch_heading(refusal: &Refusal) -> &'static str
    ensures { result.now ≡ batch_heading refusal.now }
{
    match refusal {
        Refusal::Flow(_) => "refused 1 Flow",
        Refusal::NotConstant(_) => "refused 2 NotConstant",
        Refusal::UnderLocalCondition(_, _) => "refused 3 UnderLocalCondition",
        Refusal::Escapes(_) => "refused 4 Escapes",
        Refusal::BatchInside(_) => "refused 5 BatchInside",
        Refusal::InTry(_) => "refused 6 InTry",
        Refusal::RemoteVar(_) => "refused 7 RemoteVar",
        Refusal::TooManyInputs(_, _) => "refused 8 TooManyInputs",
        Refusal::ScriptTooLarge(_, _) => "refused 9 ScriptTooLarge",
    }
}

/// Appends the line and the column of a position, behind a space.
fn put_place(
    alloc: Global,
    places: &Places<'_>,
    at: u32,
    into: &mut Vec<u8>,
) -> Result<(), AllocError>
    requires { WithinLength places.now }
    ensures { OnOk result (into.new.items ≡ into.old.items ++ spaced_place places.now at) }
{
    let place = place_found(alloc, places, at)?;
    into.extend_from_slice(b" ")?;
    into.extend_from_slice(place.as_slice())
}

/// Appends those of several positions.
fn put_places(
    alloc: Global,
    places: &Places<'_>,
    ps: &[u32],
    into: &mut Vec<u8>,
) -> Result<(), AllocError>
    requires { WithinLength places.now }
    ensures { OnOk result (into.new.items ≡ into.old.items ++ spaced_places places.now ps.now) }
{
    for at in ps {
        put_place(alloc, places, *at, into)?;
    }
    Ok(())
}

/// Appends the positions of a refusal.
fn put_positions(
    alloc: Global,
    places: &Places<'_>,
    refusal: &Refusal,
    into: &mut Vec<u8>,
) -> Result<(), AllocError>
    requires { WithinLength places.now }
    ensures { OnOk result (into.new.items ≡ into.old.items ++ spaced_places places.now (positions refusal.now)) }
{
    match refusal {
        Refusal::Flow(chain) => put_places(alloc, places, chain.as_slice(), into),
        Refusal::UnderLocalCondition(condition, operation) => {
            put_place(alloc, places, *condition, into)?;
            put_place(alloc, places, *operation, into)
        }
        Refusal::NotConstant(at)
        | Refusal::Escapes(at)
        | Refusal::BatchInside(at)
        | Refusal::InTry(at)
        | Refusal::RemoteVar(at)
        | Refusal::TooManyInputs(at, _)
        | Refusal::ScriptTooLarge(at, _) => put_place(alloc, places, *at, into),
    }
}

/// How many inputs or bytes there are, behind a space, where that is what is refused.
fn amount(alloc: Global, refusal: &Refusal) -> Result<String, AllocError>
    ensures { IfOk result (λ shown. string_bytes shown ≡ words.amount refusal.now) }
{
    match refusal {
        Refusal::TooManyInputs(_, count) => format!(in alloc; " {count}"),
        Refusal::ScriptTooLarge(_, bytes) => format!(in alloc; " {bytes}"),
        Refusal::Flow(_)
        | Refusal::NotConstant(_)
        | Refusal::UnderLocalCondition(_, _)
        | Refusal::Escapes(_)
        | Refusal::BatchInside(_)
        | Refusal::InTry(_)
        | Refusal::RemoteVar(_) => Ok(String::new(alloc)),
    }
}

/// The line that shows the refusal of a batch in its program's text.
pub fn batch_refusal_line(alloc: Global, text: &[u8], refusal: &Refusal) -> Result<Vec<u8>, Memory>
    requires { WithinLength text.now }
    ensures { IfOk result (λ shown. shown.items ≡ line (shown_batch_refusal text.now refusal.now)) }
{
    let places = Places::of(alloc, text)?;
    let mut shown = Vec::from_slice(alloc, batch_heading(refusal).as_bytes())?;
    put_positions(alloc, &places, refusal, &mut shown)?;
    let amount = amount(alloc, refusal)?;
    shown.extend_from_slice(amount.as_bytes())?;
    shown.extend_from_slice(b"\n")?;
    Ok(shown)
}
