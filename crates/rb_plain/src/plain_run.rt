// The unsplit run of a program.

ghost use Rattle.std.specs.Prelude.{◌≡◌, IfOk};
ghost use Rattle.rb_meaning.specs.Shown.{shown_events};
ghost use Rattle.rb_plain.specs.Batches.{AreBatchesOf};
ghost use Rattle.rb_plain.specs.Staged.{program_of};
ghost use Rattle.rb_plain.specs.Unsplit.{Leaves, WritesUnlessStarved, meant, staged_meaning};
ghost use Rattle.rb_plain.specs.Worlds.{output};

use crate::batch_world::BatchWorld;
use crate::batches::Batches;
use crate::main_run::perform_main;
use crate::outer_world::OuterWorld;
use crate::run::{PlainStop, Terms};
use crate::stage::Stage;
use rb_base::Sink;
use rb_code::Code;
use rb_flow::Admitted;
use rb_heap::Heap;
use rb_marks::Facts;
use rb_trees::{Change, Run, Seq};
use std::alloc::Global;
use std::mem;

// Runs the program of a stage on its service, with this table and on these terms.
fn run_on<'a, 'b, 'p, W: Sink>(
    alloc: Global,
    stage: Stage<'a>,
    batches: &'b Batches<'p>,
    table: &mut Heap,
    terms: Terms<'b>,
    out: &mut W,
) -> Result<Run, PlainStop>
    requires { AreBatchesOf (program_of stage) batches.now }
    ensures left { IfOk result (λ run. Leaves (staged_meaning stage.entry table.old terms.entry) run table.new) }
    ensures written { let text = shown_events (staged_meaning stage.entry table.old terms.entry).events in
        WritesUnlessStarved text result (output W.Sink out.old) (output W.Sink out.new) }
{
    let first = mem::replace(table, Heap::make(alloc));
    let mut world = OuterWorld::over(alloc, batches, stage, first, terms.others, out);
    let ended = perform_main(alloc, &mut world, terms.fuel);
    let OuterWorld {
        batches: _,
        inner,
        exchanges,
        others: _,
    } = world;
    let BatchWorld { remote, out: _out } = inner;
    let mut server = remote.server;
    *table = server.replace_table(Heap::make(alloc));
    match ended {
        Ok(ending) => Ok(Run { ending, exchanges }),
        Err(stop) => Err(stop),
    }
}

// The same with the batches of the program, which are collected.
fn run_staged<'a, W: Sink>(
    alloc: Global,
    stage: Stage<'a>,
    table: &mut Heap,
    terms: Terms<'_>,
    out: &mut W,
) -> Result<Run, PlainStop>
    ensures left { IfOk result (λ run. Leaves (staged_meaning stage.entry table.old terms.entry) run table.new) }
    ensures written { let text = shown_events (staged_meaning stage.entry table.old terms.entry).events in
        WritesUnlessStarved text result (output W.Sink out.old) (output W.Sink out.new) }
{
    let batches = Batches::of(alloc, stage.facts())?;
    run_on(alloc, stage, &batches, table, terms, out)
}

/// Runs an admitted program with so much fuel on a service, of whose classes this is the code, with this root and table:
/// `meaning_with`. Before each batch others make the changes of a list, the first list before the first batch; where there
/// are no more lists they change nothing.
///
/// Each line goes to the output as it comes, and the table becomes what the
/// run leaves. After `WriteFault` a front of the lines was written; after `Memory` nothing is said of the output; after
/// both nothing is said of the table.
pub fn unsplit<W: Sink>(
    alloc: Global,
    admitted: &Admitted<'_>,
    code: &Code,
    root: u32,
    table: &mut Heap,
    fuel: u64,
    out: &mut W,
    others: &Seq<Seq<Change>>,
) -> Result<Run, PlainStop>
    ensures left { let m = meant admitted.now.0 code.now root table.old others.now fuel in
        IfOk result (λ run. Leaves m run table.new) }
    ensures written { let text = shown_events (meant admitted.now.0 code.now root table.old others.now fuel).events in
        WritesUnlessStarved text result (output W.Sink out.old) (output W.Sink out.new) }
{
    let typed = admitted.typed();
    let program = typed.program();
    let own = Code::make(alloc, &program.classes)?;
    let facts = Facts::new(alloc, typed)?;
    let stage = Stage::new(facts, &*admitted, &own, code, root);
    let terms = Terms {
        fuel,
        others: others.as_slice(),
    };
    run_staged(alloc, stage, table, terms, out)
}
