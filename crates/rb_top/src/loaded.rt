// Programs and services from their files; or it is said why there is none.

ghost use Rattle.std.specs.Prelude.{IfOk};
ghost use Rattle.rb_law_division.specs.Sendable.{HasPlaces};
ghost use Rattle.rb_top.specs.Commands.{IsTypedService, LoadsProgram, LoadsService};
ghost use Rattle.rb_top.specs.Scene.{Between};
ghost use Rattle.rb_top.specs.Sources.{program_of, text_of};
ghost use Rattle.rb_top.specs.Texts.{WithinLength};

use crate::loading::load_text;
use crate::refusing::{refuse, refuse_service, refuse_types};
use crate::saying::say_unread;
use crate::source::Source;
use crate::status::Status;
use rb_base::{Files, Sink};
use rb_heap::Heap;
use rb_law_reading::read_programs_have_places;
use rb_parse::parse_program;
use rb_store::read_service;
use rb_trees::Service;
use rb_types::check as check_types;
use std::alloc::Global;

/// The typed program in a file, or the status after it was said why there is none.
pub fn loaded_program<F: Files, W: Sink>(
    alloc: Global,
    name: &str,
    files: &mut F,
    out: &mut W,
) -> Result<Source, Status>
    ensures places { IfOk result (λ source. HasPlaces (program_of source)) }
    ensures short { IfOk result (λ source. WithinLength (text_of source)) }
    ensures loads { Between F.Files W.Sink files.old out.old files.new out.new (LoadsProgram name.now result) }
{
    read_programs_have_places();
    match load_text(alloc, name, files) {
        Err(stop) => Err(say_unread(alloc, stop, name, out)),
        Ok(text) => {
            let source = text.as_slice();
            match parse_program(alloc, source) {
                Err(error) => Err(refuse(alloc, source, error, out)),
                Ok(program) => match check_types(alloc, program) {
                    Err(error) => Err(refuse_types(alloc, source, error, out)),
                    Ok(typed) => Ok(Source { text, typed }),
                },
            }
        }
    }
}

/// The service in a file with its table, or the status after it was said why there is none.
pub fn loaded_service<F: Files, W: Sink>(
    alloc: Global,
    name: &str,
    files: &mut F,
    out: &mut W,
) -> Result<(Service, Heap), Status>
    ensures typed { IfOk result (λ loaded. IsTypedService loaded) }
    ensures loads { Between F.Files W.Sink files.old out.old files.new out.new (LoadsService name.now result) }
{
    match load_text(alloc, name, files) {
        Err(stop) => Err(say_unread(alloc, stop, name, out)),
        Ok(text) => {
            let source = text.as_slice();
            match read_service(alloc, source) {
                Err(error) => Err(refuse_service(alloc, source, error, out)),
                Ok(loaded) => Ok(loaded),
            }
        }
    }
}
