// The batches of a program, in source order.

ghost use Rattle.std.specs.Prelude.{◌≡◌, map, IfOk};
ghost use Rattle.rb_trees.specs.mirror.Declarations.{mirror_program};
ghost use Rattle.rb_meaning_flow.specs.Outermost.{program_batches};
ghost use Rattle.rb_flow.specs.Begun.{begun, begun_of};
ghost use Rattle.rb_split.specs.Views.{facts};

use rb_flow::{OpenBatch, collect_batches};
use rb_marks::Facts;
use rb_trees::{Memory, Seq};
use std::alloc::Global;

/// The batches of a program as they begin, in source order.
pub fn batches_of<'p>(alloc: Global, x: &Facts<'p>) -> Result<Seq<OpenBatch<'p>>, Memory>
    ensures { IfOk result (λ bs. map begun_of bs ≡ map begun (program_batches (facts x.now) (mirror_program x.now))) }
{
    collect_batches(alloc, x, x.typed().program())
}
