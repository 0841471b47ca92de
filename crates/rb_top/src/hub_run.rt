// The events in a file are played by a hub over the service in another, and what comes out is printed.

ghost use Rattle.std.specs.Prelude.{◌≡◌, map, IfOk};
ghost use Rattle.std.specs.String.{string_bytes};
ghost use Rattle.rb_trees.specs.mirror.Services.{mirror_service};
ghost use Rattle.rb_meaning.specs.Links.{IsTyped};
ghost use Rattle.rb_meaning.specs.Shown.{line};
ghost use Rattle.rb_hub.specs.Hubs.{new_hub};
ghost use Rattle.rb_hub.specs.Serial.{as_event};
ghost use Rattle.rb_hub_lines.specs.Shown.{out_lines, shown_out, shown_refusal};
ghost use Rattle.rb_top.specs.Ends.{Ends};
ghost use Rattle.rb_top.specs.HubRuns.{PlaysAs, PlaysEach, PlaysFrom, PlaysHub, PlaysText, bad_line, served_there, step_lines};
ghost use Rattle.rb_top.specs.Printing.{Prints};
ghost use Rattle.rb_top.specs.Runs.{served_on};
ghost use Rattle.rb_top.specs.Scene.{output, Across, Between};
ghost use Rattle.rb_top.specs.Words.{playing_by};
ghost use Rattle.rb_top.specs.declared.status.Status.TheVariants.{EventRefused};

use crate::loaded::loaded_service;
use crate::loading::load_text;
use crate::printing::{PrintStop, print_text};
use crate::saying::{say, say_unread, stopped};
use crate::server::say_table;
use crate::status::Status;
use crate::words::Playing;
use rb_base::{Files, Sink};
use rb_exec::Host;
use rb_heap::Heap;
use rb_hub::{Event, Hub, HubRefusal, Out, play_one};
use rb_hub_lines::{EventsStop, out_line, read_events, refusal_line};
use rb_meaning_frames::histories_go_on;
use rb_trees::{Seq, Service};
use std::alloc::{AllocError, Global};
use std::collections::VecDeque;

/// Prints what came out of a hub.
fn say_out<W: Sink>(alloc: Global, given: &Out, out: &mut W) -> Result<(), PrintStop>
    ensures { Prints (line (shown_out given.now)) result (output W.Sink out.old) (output W.Sink out.new) }
{
    match out_line(alloc, given) {
        Ok(text) => print_text(text.as_bytes(), out),
        Err(_) => Err(PrintStop::Memory),
    }
}

/// Prints all that came out of a hub at an event.
fn say_outs<W: Sink>(alloc: Global, given: &[Out], out: &mut W) -> Result<(), PrintStop>
    ensures { Prints (out_lines given.now) result (output W.Sink out.old) (output W.Sink out.new) }
{
    for one in given {
        say_out(alloc, one, out)?;
    }
    Ok(())
}

/// Prints why an event was refused.
fn say_refusal<W: Sink>(
    alloc: Global,
    number: u64,
    refusal: HubRefusal,
    out: &mut W,
) -> Result<(), PrintStop>
    ensures { Prints (line (shown_refusal number refusal)) result (output W.Sink out.old) (output W.Sink out.new) }
{
    match refusal_line(alloc, number, refusal) {
        Ok(text) => print_text(text.as_bytes(), out),
        Err(_) => Err(PrintStop::Memory),
    }
}

/// Prints the lines of an event: all that came out at it, or why it was refused.
fn say_step<W: Sink>(
    alloc: Global,
    number: u64,
    refusal: Option<HubRefusal>,
    given: &[Out],
    out: &mut W,
) -> Result<(), PrintStop>
    ensures { Prints (step_lines number refusal given.now) result (output W.Sink out.old) (output W.Sink out.new) }
{
    match refusal {
        None => say_outs(alloc, given, out),
        Some(refusal) => say_refusal(alloc, number, refusal, out),
    }
}

/// Plays an event, and prints its lines.
fn play_next<W: Sink>(
    alloc: Global,
    hub: &mut Hub<Host>,
    number: u64,
    event: Event,
    out: &mut W,
) -> Result<(), PrintStop>
    ensures { Across W.Sink out.old out.new (PlaysFrom number (as_event event) hub.old hub.new result) }
{
    let mut given = Seq::new(alloc);
    match play_one(alloc, hub, event, &mut given) {
        Ok(refusal) => say_step(alloc, number, refusal, given.as_slice(), out),
        Err(_) => Err(PrintStop::Memory),
    }
}

/// Plays events by a new hub, in order, and prints the lines of each.
fn play_events<W: Sink>(
    alloc: Global,
    hub: &mut Hub<Host>,
    events: VecDeque<Event>,
    out: &mut W,
) -> Result<(), PrintStop>
    requires { hub.old ≡ new_hub hub.old.answers }
    ensures { let played = map as_event events.items in
        Across W.Sink out.old out.new (PlaysEach (served_there hub.old.answers) played hub.new result) }
{
    histories_go_on();
    let mut left = events;
    let mut number = 0u64;
    'events: while let Some(event) = left.pop_front() {
        number += 1;
        play_next(alloc, hub, number, event, out)?;
    }
    Ok(())
}

/// Plays events by a hub over a service and its table, and then prints the table.
fn play_on<W: Sink>(
    alloc: Global,
    service: Service,
    table: Heap,
    events: VecDeque<Event>,
    out: &mut W,
) -> Status
    requires { IsTyped (mirror_service service) table }
    ensures { let played = map as_event events.items in
        Across W.Sink out.old out.new (PlaysHub (served_on service table) played result) }
{
    histories_go_on();
    let Ok(host) = Host::make(alloc, service, table) else {
        return Status::Memory;
    };
    let mut hub = Hub::make(alloc, host);
    match play_events(alloc, &mut hub, events, out) {
        Ok(()) => say_table(alloc, hub.answers().table(), out),
        Err(stop) => stopped(stop),
    }
}

/// The line of a text whose line with this number is no event's.
#[tactic(auto, using(crate::proofs::Lines::pieces))]
fn bad_line_text(alloc: Global, number: u64) -> Result<String, AllocError>
    ensures { IfOk result (λ text. string_bytes text ≡ bad_line number) }
{
    format!(in alloc; "events bad line {number}\n")
}

/// Says that a line of a text is no event's.
fn say_bad_line<W: Sink>(alloc: Global, number: u64, out: &mut W) -> Status
    ensures { Ends (EventRefused number) (bad_line number) result (output W.Sink out.old) (output W.Sink out.new) }
{
    match bad_line_text(alloc, number) {
        Ok(text) => say(Status::EventRefused(number), text.as_bytes(), out),
        Err(_) => Status::Memory,
    }
}

/// Plays the events of a text by a hub over a service and its table.
fn play_text<W: Sink>(
    alloc: Global,
    text: &[u8],
    service: Service,
    table: Heap,
    out: &mut W,
) -> Status
    requires { IsTyped (mirror_service service) table }
    ensures { Across W.Sink out.old out.new (PlaysText text.now (served_on service table) result) }
{
    match read_events(alloc, text) {
        Ok(events) => play_on(alloc, service, table, events, out),
        Err(EventsStop::Refused(number)) => say_bad_line(alloc, number, out),
        Err(EventsStop::Memory) => Status::Memory,
    }
}

/// Plays the events in a file by a hub over the service in another, which is read after it.
pub fn run_hub<F: Files, W: Sink>(
    alloc: Global,
    playing: &Playing<'_>,
    files: &mut F,
    out: &mut W,
) -> Status
    ensures { Between F.Files W.Sink files.old out.old files.new out.new (PlaysAs (playing_by playing.now) result) }
{
    match load_text(alloc, playing.events, files) {
        Err(stop) => say_unread(alloc, stop, playing.events, out),
        Ok(text) => match loaded_service(alloc, playing.service, files, out) {
            Err(status) => status,
            Ok((service, table)) => play_text(alloc, text.as_slice(), service, table, out),
        },
    }
}
