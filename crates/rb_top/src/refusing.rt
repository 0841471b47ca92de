// What is said of a text that is refused.

ghost use Rattle.rb_top.specs.Commands.{EndsBatchRefused, EndsRefused, EndsRefusedService, EndsUntyped};
ghost use Rattle.rb_top.specs.Scene.{output};
ghost use Rattle.rb_top.specs.Texts.{WithinLength};

use crate::batch_refusals::batch_refusal_line;
use crate::refusals::{is_memory, is_no_violation, refusal_line, violation_line};
use crate::saying::say;
use crate::service_refusals::{is_no_store_refusal, service_refusal_line};
use crate::status::{SourceError, Status};
use rb_base::Sink;
use rb_trees::{ReadError, Refusal, StoreError, TypeError};
use std::alloc::Global;

/// Says why a text is refused.
pub fn refuse<W: Sink>(alloc: Global, text: &[u8], error: ReadError, out: &mut W) -> Status
    requires { WithinLength text.now }
    ensures { EndsRefused text.now error result (output W.Sink out.old) (output W.Sink out.new) }
{
    if is_memory(&error) {
        return Status::Memory;
    }
    match refusal_line(alloc, text, &error) {
        Ok(line) => say(
            Status::SourceRefused(SourceError::Read(error)),
            line.as_slice(),
            out,
        ),
        Err(_) => Status::Memory,
    }
}

/// Says why a program isn't typed.
pub fn refuse_types<W: Sink>(alloc: Global, text: &[u8], error: TypeError, out: &mut W) -> Status
    requires { WithinLength text.now }
    ensures { EndsUntyped text.now error result (output W.Sink out.old) (output W.Sink out.new) }
{
    if is_no_violation(&error) {
        return Status::Memory;
    }
    match violation_line(alloc, text, &error) {
        Ok(line) => say(
            Status::SourceRefused(SourceError::Types(error)),
            line.as_slice(),
            out,
        ),
        Err(_) => Status::Memory,
    }
}

/// Says why a program isn't admitted, or isn't divided.
pub fn refuse_batch<W: Sink>(alloc: Global, text: &[u8], refusal: Refusal, out: &mut W) -> Status
    requires { WithinLength text.now }
    ensures { EndsBatchRefused text.now refusal result (output W.Sink out.old) (output W.Sink out.new) }
{
    match batch_refusal_line(alloc, text, &refusal) {
        Ok(line) => say(Status::BatchRefused(refusal), line.as_slice(), out),
        Err(_) => Status::Memory,
    }
}

/// Says why a service's text is refused.
pub fn refuse_service<W: Sink>(alloc: Global, text: &[u8], error: StoreError, out: &mut W) -> Status
    requires { WithinLength text.now }
    ensures { EndsRefusedService text.now error result (output W.Sink out.old) (output W.Sink out.new) }
{
    if is_no_store_refusal(&error) {
        return Status::Memory;
    }
    match service_refusal_line(alloc, text, &error) {
        Ok(line) => say(Status::ServiceRefused(error), line.as_slice(), out),
        Err(_) => Status::Memory,
    }
}
