// Lines on the output, each of which is handed over whole, with its line feed, as one piece.

ghost use Rattle.std.specs.Prelude.{◌≡◌, ◌++◌, ◌≤◌, length, codes, IfOk};
ghost use Rattle.std.specs.Fmt.{decimal};
ghost use Rattle.std.specs.String.{string_bytes};
ghost use Rattle.rb_base.specs.Sinks.{Writes};
ghost use Rattle.rb_meaning.specs.Shown.{line, shown_ending, shown_table};
ghost use Rattle.rb_top.specs.Printing.{Prints, PrintsAnswering, counted_end_text, end_text, end_text_in, first_line_length, objects_line, run_end_text};
ghost use Rattle.rb_top.specs.Runs.{ended_status};
ghost use Rattle.rb_top.specs.Scene.{output};
ghost use Rattle.rb_top.specs.Texts.{WithinLength};

use crate::status::{Status, status_of};
use crate::words::Way;
use rb_base::{Failed, Sink, write_whole};
use rb_heap::Heap;
use rb_plain::PlainStop;
use rb_shown::{ending_line, exchanges_line};
use rb_store::print_table;
use rb_trees::{Ending, Memory, Run};
use std::alloc::{AllocError, Global};

/// Why a line wasn't printed whole: a write failed, or no memory was left to make it.
#[derive(Debug, Drop)]
pub enum PrintStop {
    WriteFault,
    Memory,
}

impl From<Failed> for PrintStop {
    ghost use Rattle.std.specs.Prelude.{◌≡◌};
    ghost use Rattle.rb_top.specs.declared.printing.PrintStop.TheVariants as stops;

    ghost from_gives = { λ _ e. e ≡ stops.WriteFault };

    fn from(_failed: Failed) -> PrintStop {
        PrintStop::WriteFault
    }
}

impl From<AllocError> for PrintStop {
    ghost use Rattle.std.specs.Prelude.{◌≡◌};
    ghost use Rattle.rb_top.specs.declared.printing.PrintStop.TheVariants as stops;

    ghost from_gives = { λ _ e. e ≡ stops.Memory };

    fn from(_error: AllocError) -> PrintStop {
        PrintStop::Memory
    }
}

impl From<Memory> for PrintStop {
    ghost use Rattle.std.specs.Prelude.{◌≡◌};
    ghost use Rattle.rb_top.specs.declared.printing.PrintStop.TheVariants as stops;

    ghost from_gives = { λ _ e. e ≡ stops.Memory };

    fn from(_want: Memory) -> PrintStop {
        PrintStop::Memory
    }
}

impl From<PlainStop> for PrintStop {
    ghost use Rattle.std.specs.Prelude.{◌≡◌};
    ghost use Rattle.rb_top.specs.Printing.{stop_of};

    ghost from_gives = { λ stop e. e ≡ stop_of stop };

    fn from(stop: PlainStop) -> PrintStop {
        match stop {
            PlainStop::WriteFault => PrintStop::WriteFault,
            PlainStop::Memory => PrintStop::Memory,
        }
    }
}

/// How many bytes the first line of a text has, with its line feed. A last line may have none.
fn first_line_length(text: &[u8]) -> usize
    ensures within { result ≤ length text.now }
    ensures count { result ≡ first_line_length text.now }
{
    for (count, byte) in text.iter().enumerate() {
        if *byte == b'\n' {
            return count + 1;
        }
    }
    text.len()
}

/// Writes a text line by line: each line, with its line feed, is one piece for the sink.
pub fn write_lines<W: Sink>(text: &[u8], out: &mut W) -> Result<(), Failed>
    ensures { Writes text.now result (output W.Sink out.old) (output W.Sink out.new) }
{
    let mut rest = text;
    while !rest.is_empty() {
        let (line, more) = rest.split_at(first_line_length(rest));
        write_whole(out, line)?;
        rest = more;
    }
    Ok(())
}

/// Prints a text line by line.
pub fn print_text<W: Sink>(text: &[u8], out: &mut W) -> Result<(), PrintStop>
    ensures { Prints text.now result (output W.Sink out.old) (output W.Sink out.new) }
{
    match write_lines(text, out) {
        Ok(()) => Ok(()),
        Err(Failed) => Err(PrintStop::WriteFault),
    }
}

/// Prints the line that tells how a run ended.
fn print_ending<W: Sink>(
    alloc: Global,
    source: &[u8],
    ending: &Ending,
    out: &mut W,
) -> Result<(), PrintStop>
    requires { WithinLength source.now }
    ensures { Prints (line (shown_ending source.now ending.now)) result (output W.Sink out.old) (output W.Sink out.new) }
{
    match ending_line(alloc, source, ending) {
        Ok(text) => print_text(text.as_slice(), out),
        Err(Memory) => Err(PrintStop::Memory),
    }
}

/// Prints the line of the number of exchanges.
fn print_exchanges<W: Sink>(alloc: Global, count: u64, out: &mut W) -> Result<(), PrintStop>
    ensures { Prints (line (codes "exchanges " ++ decimal count)) result (output W.Sink out.old) (output W.Sink out.new) }
{
    match exchanges_line(alloc, count) {
        Ok(text) => print_text(text.as_slice(), out),
        Err(Memory) => Err(PrintStop::Memory),
    }
}

/// Prints the lines of the objects of a table.
pub fn print_objects<W: Sink>(alloc: Global, table: &Heap, out: &mut W) -> Result<(), PrintStop>
    ensures { Prints (shown_table 0 table.now) result (output W.Sink out.old) (output W.Sink out.new) }
{
    match print_table(alloc, table) {
        Ok(text) => print_text(text.as_slice(), out),
        Err(Memory) => Err(PrintStop::Memory),
    }
}

/// The line of the number of objects.
#[tactic(auto, using(crate::proofs::Lines::pieces))]
fn count_line(alloc: Global, count: u32) -> Result<String, AllocError>
    ensures { IfOk result (λ text. string_bytes text ≡ line (codes "objects " ++ decimal count)) }
{
    format!(in alloc; "objects {count}\n")
}

/// Prints how many objects a table has.
fn print_count<W: Sink>(alloc: Global, table: &Heap, out: &mut W) -> Result<(), PrintStop>
    ensures { Prints (objects_line table.now) result (output W.Sink out.old) (output W.Sink out.new) }
{
    match count_line(alloc, table.len()) {
        Ok(text) => print_text(text.as_bytes(), out),
        Err(_) => Err(PrintStop::Memory),
    }
}

/// Prints how a run ended, and how often it exchanged.
fn print_end<W: Sink>(
    alloc: Global,
    source: &[u8],
    ending: &Ending,
    exchanges: u64,
    out: &mut W,
) -> Result<(), PrintStop>
    requires { WithinLength source.now }
    ensures { Prints (run_end_text source.now ending.now exchanges) result (output W.Sink out.old) (output W.Sink out.new) }
{
    print_ending(alloc, source, ending, out)?;
    print_exchanges(alloc, exchanges, out)
}

/// Prints what follows the lines of a run over a link, and answers how it ended.
pub fn print_run_end<W: Sink>(
    alloc: Global,
    source: &[u8],
    run: Run,
    out: &mut W,
) -> Result<Status, PrintStop>
    requires { WithinLength source.now }
    ensures { let said = run_end_text source.now run.ending run.exchanges in
        PrintsAnswering (ended_status run.ending) said result (output W.Sink out.old) (output W.Sink out.new) }
{
    print_end(alloc, source, &run.ending, run.exchanges, out)?;
    Ok(status_of(run.ending))
}

/// Prints what follows the lines of a run that left a table, and answers how it ended.
pub fn print_run_end_with_table<W: Sink>(
    alloc: Global,
    source: &[u8],
    run: Run,
    table: &Heap,
    out: &mut W,
) -> Result<Status, PrintStop>
    requires { WithinLength source.now }
    ensures { let said = end_text source.now run.ending run.exchanges table.now in
        PrintsAnswering (ended_status run.ending) said result (output W.Sink out.old) (output W.Sink out.new) }
{
    let status = print_run_end(alloc, source, run, out)?;
    print_objects(alloc, table, out)?;
    Ok(status)
}

/// Prints what follows the lines of a run that left a table, but for the table how many objects it has, and answers how it ended.
fn print_run_end_with_count<W: Sink>(
    alloc: Global,
    source: &[u8],
    run: Run,
    table: &Heap,
    out: &mut W,
) -> Result<Status, PrintStop>
    requires { WithinLength source.now }
    ensures { let said = counted_end_text source.now run.ending run.exchanges table.now in
        PrintsAnswering (ended_status run.ending) said result (output W.Sink out.old) (output W.Sink out.new) }
{
    let status = print_run_end(alloc, source, run, out)?;
    print_count(alloc, table, out)?;
    Ok(status)
}

/// Prints what follows the lines of a run in some way that left a table, and answers how it ended.
pub fn print_run_end_in<W: Sink>(
    alloc: Global,
    source: &[u8],
    way: Way,
    run: Run,
    table: &Heap,
    out: &mut W,
) -> Result<Status, PrintStop>
    requires { WithinLength source.now }
    ensures { let said = end_text_in way source.now run.ending run.exchanges table.now in
        PrintsAnswering (ended_status run.ending) said result (output W.Sink out.old) (output W.Sink out.new) }
{
    match way {
        Way::Trial => print_run_end_with_count(alloc, source, run, table, out),
        Way::Both | Way::Unsplit | Way::Pair => {
            print_run_end_with_table(alloc, source, run, table, out)
        }
    }
}
