// The division of a program's batches.

ghost use Rattle.std.specs.Prelude.{◌≡◌, ◌<◌, map, IfOk};
ghost use Rattle.rb_trees.specs.mirror.Declarations.{mirror_program};
ghost use Rattle.rb_flow.specs.Begun.{begun_of};
ghost use Rattle.rb_split.specs.Numbers as numbers;
ghost use Rattle.rb_split.specs.Numbers.{AreNumbered};
ghost use Rattle.rb_split.specs.Seen.{DividesAll, DividesAllBegun, DividesBatch};

use crate::batches::batches_of;
use crate::division::divide;
use crate::numbers::next;
use crate::stops::SplitStop;
use rb_flow::{Admitted, OpenBatch};
use rb_marks::Facts;
use rb_trees::{Seq, Split};
use std::alloc::Global;

// The divisions of batches, which are numbered from 0 in order, or the first refusal.
fn divide_all(
    alloc: Global,
    x: &Facts<'_>,
    batches: &[OpenBatch<'_>],
) -> Result<Seq<Split>, SplitStop>
    ensures divided { DividesAllBegun (mirror_program x.now) (map begun_of batches.now) result }
    ensures numbered { IfOk result AreNumbered }
{
    let mut splits = Seq::new(alloc);
    let mut number = 0u32;
    'batches: for batch in batches {
        splits.push(divide(alloc, x, number, batch)?)?;
        number = next(number)?;
    }
    Ok(splits)
}

/// The division of the batch of a number, or its refusal: `divided` of `rb_meaning_split`. Batches are numbered from 0 in
/// source order.
pub fn split(alloc: Global, admitted: &Admitted<'_>, batch: u32) -> Result<Split, SplitStop>
    requires { batch < numbers.batches_of (mirror_program admitted.now.0) }
    ensures divided { DividesBatch (mirror_program admitted.now.0) batch result }
    ensures number { IfOk result (λ s. s.batch ≡ batch) }
{
    let x = Facts::new(alloc, admitted.typed())?;
    let batches = batches_of(alloc, &x)?;
    divide(alloc, &x, batch, &batches.as_slice()[batch as usize])
}

/// The divisions of all batches in source order, each with its number, or the first refusal: `divisions` of
/// `rb_meaning_split`.
pub fn split_all(alloc: Global, admitted: &Admitted<'_>) -> Result<Seq<Split>, SplitStop>
    ensures divided { DividesAll (mirror_program admitted.now.0) result }
    ensures numbered { IfOk result AreNumbered }
{
    let x = Facts::new(alloc, admitted.typed())?;
    let batches = batches_of(alloc, &x)?;
    divide_all(alloc, &x, batches.as_slice())
}
