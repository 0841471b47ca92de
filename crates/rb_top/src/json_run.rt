// A request in JSON is answered on the service in a file, and the reply is printed, and then the table.

ghost use Rattle.std.specs.Prelude.{◌++◌, IfOk, ◌≡◌};
ghost use Rattle.std.specs.String.{string_bytes};
ghost use Rattle.rb_trees.specs.mirror.Services.{mirror_service};
ghost use Rattle.rb_meaning.specs.Links.{IsTyped};
ghost use Rattle.rb_meaning.specs.Shown.{line, shown_table};
ghost use Rattle.rb_session.specs.Answering.{IsTypedHost};
ghost use Rattle.rb_top.specs.Ends.{Ends};
ghost use Rattle.rb_top.specs.HubRuns.{served_there};
ghost use Rattle.rb_top.specs.JsonRuns.{AnswersAs, AnswersJson, EndsAnswer, shown_json_refusal};
ghost use Rattle.rb_top.specs.Printing.{Prints};
ghost use Rattle.rb_top.specs.Runs.{served_on};
ghost use Rattle.rb_top.specs.Scene.{output, Across, Between};
ghost use Rattle.rb_top.specs.Texts.{WithinLength};
ghost use Rattle.rb_top.specs.Words.{asking_by};
ghost use Rattle.rb_top.specs.declared.status.Status.TheVariants.{Done, JsonRefused};

use crate::loaded::loaded_service;
use crate::loading::load_text;
use crate::printing::{PrintStop, print_objects, print_text};
use crate::saying::{ended, say, say_unread};
use crate::status::Status;
use crate::words::Asking;
use rb_base::{Files, Sink};
use rb_exec::Host;
use rb_heap::Heap;
use rb_json::{JsonRefusal, JsonStop, json_answer};
use rb_trees::{Seq, Service};
use std::alloc::{AllocError, Global};

/// The line of a request that is refused.
#[tactic(auto, using(crate::proofs::Lines::pieces))]
fn refusal_text(alloc: Global, refusal: &JsonRefusal) -> Result<String, AllocError>
    ensures { IfOk result (λ text. string_bytes text ≡ shown_json_refusal refusal.now) }
{
    match refusal {
        JsonRefusal::NotJson => format!(in alloc; "json 1 NotJson\n"),
        JsonRefusal::WrongForm(place) => format!(in alloc; "json 2 WrongForm at {place}\n"),
    }
}

/// Says why a request is refused.
fn say_refusal<W: Sink>(alloc: Global, refusal: JsonRefusal, out: &mut W) -> Status
    ensures { Ends (JsonRefused refusal) (shown_json_refusal refusal) result (output W.Sink out.old) (output W.Sink out.new) }
{
    match refusal_text(alloc, &refusal) {
        Ok(text) => say(Status::JsonRefused(refusal), text.as_bytes(), out),
        Err(_) => Status::Memory,
    }
}

/// Prints a reply as a line, and then the objects of the table.
fn print_reply<W: Sink>(
    alloc: Global,
    reply: Seq<u8>,
    table: &Heap,
    out: &mut W,
) -> Result<(), PrintStop>
    ensures { let said = line reply ++ shown_table 0 table.now in
        Prints said result (output W.Sink out.old) (output W.Sink out.new) }
{
    let mut text = reply;
    text.push(b'\n')?;
    print_text(text.as_slice(), out)?;
    print_objects(alloc, table, out)
}

/// Prints the reply and the table of a request that was answered, or says why it is refused.
fn say_answer<W: Sink>(
    alloc: Global,
    answer: Result<(), JsonStop>,
    reply: Seq<u8>,
    table: &Heap,
    out: &mut W,
) -> Status
    ensures { Across W.Sink out.old out.new (EndsAnswer answer reply table.now result) }
{
    match answer {
        Ok(()) => ended(Status::Done, print_reply(alloc, reply, table, out)),
        Err(JsonStop::Refused(refusal)) => say_refusal(alloc, refusal, out),
        Err(JsonStop::Memory) => Status::Memory,
    }
}

/// Answers a request in JSON on a host, and prints the reply and the table; or says why the request is refused.
fn answer_request<W: Sink>(alloc: Global, host: Host, request: &[u8], out: &mut W) -> Status
    requires size { WithinLength request.now }
    requires typed { IsTypedHost host }
    ensures { Across W.Sink out.old out.new (AnswersJson request.now (served_there host) result) }
{
    let mut answering = host;
    let mut reply = Seq::new(alloc);
    let answer = json_answer(alloc, &mut answering, request, &mut reply);
    say_answer(alloc, answer, reply, answering.table(), out)
}

/// Answers a request in JSON on a service and its table.
fn answer_on<W: Sink>(
    alloc: Global,
    service: Service,
    table: Heap,
    request: &[u8],
    out: &mut W,
) -> Status
    requires size { WithinLength request.now }
    requires typed { IsTyped (mirror_service service) table }
    ensures { Across W.Sink out.old out.new (AnswersJson request.now (served_on service table) result) }
{
    match Host::make(alloc, service, table) {
        Ok(host) => answer_request(alloc, host, request, out),
        Err(_) => Status::Memory,
    }
}

/// Answers the request in JSON in a file on the service in another, which is read before it.
pub fn run_json<F: Files, W: Sink>(
    alloc: Global,
    asking: &Asking<'_>,
    files: &mut F,
    out: &mut W,
) -> Status
    ensures { Between F.Files W.Sink files.old out.old files.new out.new (AnswersAs (asking_by asking.now) result) }
{
    match loaded_service(alloc, asking.service, files, out) {
        Err(status) => status,
        Ok((service, table)) => match load_text(alloc, asking.request, files) {
            Err(stop) => say_unread(alloc, stop, asking.request, out),
            Ok(text) => answer_on(alloc, service, table, text.as_slice(), out),
        },
    }
}
