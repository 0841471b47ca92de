// The lines of refusals of a service's text.
#![tactic(auto, using(crate::proofs::Lines::pieces))]

ghost use Rattle.std.specs.Prelude.{◌≡◌, ◌++◌, IfOk, codes};
ghost use Rattle.std.specs.Option.{is_none};
ghost use Rattle.rb_meaning.specs.Shown.{line};
ghost use Rattle.rb_meaning_types.specs.Stores.{store_refusal};
ghost use Rattle.rb_top.specs.ServiceRefusals.{with_object, shown_service_refusal};
ghost use Rattle.rb_top.specs.Texts.{WithinLength};

use crate::refusals::{digits_of, is_no_violation, refusal_line, violation_line};
use rb_trees::StoreError;
use std::alloc::{AllocError, Global};

/// Whether this is want of memory, which is no refusal of a service's.
pub fn is_no_store_refusal(error: &StoreError) -> bool
    ensures { result ≡ is_none (store_refusal error.now) }
{
    match error {
        StoreError::Read(_)
        | StoreError::NoRoot
        | StoreError::BadReference(_)
        | StoreError::FieldMissing(_)
        | StoreError::FieldKind(_)
        | StoreError::ObjectNumber(_) => false,
        StoreError::Types(error) => is_no_violation(error),
        StoreError::Memory => true,
    }
}

/// The line behind the word that says that it is told of a service.
fn of_service(alloc: Global, shown: &[u8]) -> Result<Vec<u8>, AllocError>
    ensures { IfOk result (λ text. text.items ≡ codes "service " ++ shown.now) }
{
    let mut text = Vec::from_slice(alloc, b"service ")?;
    text.extend_from_slice(shown)?;
    Ok(text)
}

/// The line of what is wrong with the object of a number.
fn refused_object(alloc: Global, heading: &str, object: u32) -> Result<Vec<u8>, AllocError>
    ensures { IfOk result (λ text. text.items ≡ line (with_object heading.now object)) }
{
    let number = digits_of(alloc, object)?;
    let mut text = Vec::from_slice(alloc, heading.as_bytes())?;
    text.extend_from_slice(b" object ")?;
    text.extend_from_slice(number.as_bytes())?;
    text.extend_from_slice(b"\n")?;
    Ok(text)
}

/// The line that shows the refusal of a service's text.
pub fn service_refusal_line(
    alloc: Global,
    text: &[u8],
    error: &StoreError,
) -> Result<Vec<u8>, AllocError>
    requires { WithinLength text.now }
    ensures { IfOk result (λ shown. shown.items ≡ line (shown_service_refusal text.now error.now)) }
{
    match error {
        StoreError::Read(error) => {
            of_service(alloc, refusal_line(alloc, text, error)?.as_slice())
        }
        StoreError::Types(error) => {
            of_service(alloc, violation_line(alloc, text, error)?.as_slice())
        }
        StoreError::NoRoot => Vec::from_slice(alloc, b"service 20 NoRoot\n"),
        StoreError::BadReference(object) => {
            refused_object(alloc, "service 21 BadReference", *object)
        }
        StoreError::FieldMissing(object) => {
            refused_object(alloc, "service 22 FieldMissing", *object)
        }
        StoreError::FieldKind(object) => refused_object(alloc, "service 23 FieldKind", *object),
        StoreError::ObjectNumber(object) => {
            refused_object(alloc, "service 24 ObjectNumber", *object)
        }
        StoreError::Memory => Vec::from_slice(alloc, b"\n"),
    }
}
