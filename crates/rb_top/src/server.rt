// A server of a service over the sessions that come at an address.

ghost use Rattle.rb_trees.specs.mirror.Services.{mirror_service};
ghost use Rattle.rb_meaning.specs.Links.{IsTyped};
ghost use Rattle.rb_meaning.specs.Shown.{shown_table};
ghost use Rattle.rb_base.specs.Devices.{device};
ghost use Rattle.rb_session.specs.Answering.{IsTypedHost};
ghost use Rattle.rb_top.specs.Ends.{Ends};
ghost use Rattle.rb_top.specs.Scene.{directory, output, Across, Between};
ghost use Rattle.rb_top.specs.ServerParts.{ChildServes, EndsHost, ListensAs};
ghost use Rattle.rb_top.specs.Servers.{ServesAs, ServesHost, host_on};
ghost use Rattle.rb_top.specs.Words.{serving_by};
ghost use Rattle.rb_top.specs.declared.status.Status.TheVariants.{Done};

use crate::loaded::loaded_service;
use crate::printing::print_objects;
use crate::saying::{say, stopped};
use crate::sessions::{SessionsStop, serve_sessions};
use crate::status::Status;
use crate::words::Serving;
use rb_base::{Failed, Files, Listen, NullSink, Sink};
use rb_exec::Host;
use rb_heap::Heap;
use rb_hub::Hub;
use rb_trees::{Memory, Service};
use std::alloc::Global;

/// Prints the objects of a table.
pub fn say_table<W: Sink>(alloc: Global, table: &Heap, out: &mut W) -> Status
    ensures { Ends Done (shown_table 0 table.now) result (output W.Sink out.old) (output W.Sink out.new) }
{
    match print_objects(alloc, table, out) {
        Ok(()) => Status::Done,
        Err(stop) => stopped(stop),
    }
}

/// Prints the table that is left where serving ended well, and answers how it ended.
fn say_end<W: Sink>(
    alloc: Global,
    answer: Result<(), SessionsStop<Memory>>,
    table: &Heap,
    out: &mut W,
) -> Status
    ensures { Across W.Sink out.old out.new (EndsHost answer table.now result) }
{
    match answer {
        Ok(()) => say_table(alloc, table, out),
        Err(SessionsStop::Said(status)) => status,
        Err(SessionsStop::Answers(Memory)) => Status::Memory,
    }
}

/// Serves so many sessions at most by a hub over a host, says how each was served, and then prints the table.
fn serve_host<W: Sink, N: Listen>(
    alloc: Global,
    host: Host,
    count: u32,
    out: &mut W,
    listen: &mut N,
) -> Status
    requires { IsTypedHost host }
    ensures { let listener = device N.told N.faults in
        Across W.Sink out.old out.new (ServesHost host count result (listener listen.old) (listener listen.new)) }
{
    let mut hub = Hub::make(alloc, host);
    let answer = serve_sessions(alloc, &mut hub, count, out, listen);
    say_end(alloc, answer, hub.answers().table(), out)
}

/// Listens at an address with the server of a service and its table, and serves so many sessions at most.
fn listen_and_serve<W: Sink, N: Listen>(
    alloc: Global,
    service: Service,
    table: Heap,
    serving: &Serving<'_>,
    out: &mut W,
    listen: &mut N,
) -> Status
    requires { IsTyped (mirror_service service) table }
    ensures { let listener = device N.told N.faults in let host = host_on service table in
        Across W.Sink out.old out.new
        (ListensAs host (serving_by serving.now) result (listener listen.old) (listener listen.new)) }
{
    let Ok(host) = Host::make(alloc, service, table) else {
        return Status::Memory;
    };
    match listen.start(serving.address) {
        Ok(()) => serve_host(alloc, host, serving.count, out, listen),
        Err(Failed) => say(Status::ListenFault, b"listen fault\n", out),
    }
}

/// Serves the service in a file over the sessions that come at an address.
pub fn run_server<F: Files, W: Sink, N: Listen>(
    alloc: Global,
    serving: &Serving<'_>,
    files: &mut F,
    out: &mut W,
    listen: &mut N,
) -> Status
    ensures { let listener = device N.told N.faults in
        Between F.Files W.Sink files.old out.old files.new out.new
        (ServesAs (serving_by serving.now) result (listener listen.old) (listener listen.new)) }
{
    match loaded_service(alloc, serving.service, files, out) {
        Err(status) => status,
        Ok((service, table)) => listen_and_serve(alloc, service, table, serving, out, listen),
    }
}

/// Serves the service in a file over one session at `-`, and prints nothing.
pub fn run_child<F: Files, N: Listen>(
    alloc: Global,
    service: &str,
    files: &mut F,
    listen: &mut N,
) -> Status
    ensures { let listener = device N.told N.faults in
        ChildServes service.now result (listener listen.old) (listener listen.new) (directory F.Files files.old) (directory F.Files files.new) }
{
    run_server(
        alloc,
        &Serving::of_child(service),
        files,
        &mut NullSink,
        listen,
    )
}
