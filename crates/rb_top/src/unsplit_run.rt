// A run of a program as it stands: what it shows is printed.

ghost use Rattle.std.specs.Prelude.{◌≡◌, []};
ghost use Rattle.rb_trees.specs.mirror.Services.{mirror_service};
ghost use Rattle.rb_meaning.specs.Links.{IsTyped};
ghost use Rattle.rb_top.specs.Accepted.{IsAccepted};
ghost use Rattle.rb_top.specs.Runs.{PrintsRunOf};
ghost use Rattle.rb_top.specs.Scene.{Across};

use crate::printing::{PrintStop, print_run_end_with_table};
use crate::source::Accepted;
use crate::status::Status;
use rb_base::Sink;
use rb_code::Code;
use rb_heap::Heap;
use rb_plain::unsplit;
use rb_trees::{Change, Seq, Service};
use std::alloc::Global;

// What others change: nothing.
fn no_changes(alloc: Global) -> Seq<Seq<Change>>
    ensures { result ≡ [] }
{
    Seq::new(alloc)
}

/// Runs a program with so much fuel on a service and its table, prints what it means there, and answers how it ended.
pub fn run_unsplit<W: Sink>(
    alloc: Global,
    program: &Accepted<'_>,
    service: &Service,
    table: Heap,
    fuel: u64,
    out: &mut W,
) -> Result<Status, PrintStop>
    requires accepted { IsAccepted program.now }
    requires typed { IsTyped (mirror_service service.now) table }
    ensures { Across W.Sink out.old out.new (PrintsRunOf program.now fuel (mirror_service service.now, table) result) }
{
    let code = Code::make(alloc, &service.classes)?;
    let mut left = table;
    let nobody = no_changes(alloc);
    let run = unsplit(
        alloc,
        program.admitted,
        &code,
        service.root,
        &mut left,
        fuel,
        out,
        &nobody,
    )?;
    print_run_end_with_table(alloc, program.text, run, &left, out)
}
