// The division of a batch.

ghost use Rattle.std.specs.Prelude.{◌≡◌, ◌≤◌, length, IfOk};
ghost use Rattle.rb_trees.specs.Outcome.{Gives};
ghost use Rattle.rb_trees.specs.mirror.Declarations.{mirror_program};
ghost use Rattle.rb_meaning_split.specs.Division as meant;
ghost use Rattle.rb_flow.specs.Begun.{begun_of};
ghost use Rattle.rb_split.specs.Divided.{counted_inputs, divided_at, division_at};
ghost use Rattle.rb_split.specs.Seen.{DividesBegun, refusal_of, seen};
ghost use Rattle.rb_split.specs.Views.{refs_of};

use crate::drafts::Draft;
use crate::inputs::{inputs_of, list_numbers};
use crate::refs::{Referent, Refs};
use crate::stops::SplitStop;
use crate::walk::draft_block;
use rb_flow::OpenBatch;
use rb_marks::Facts;
use rb_scopes::Scope;
use rb_trees::{Memory, Refusal, Script, Seq, Split, Stmt, Word, code_size};
use std::alloc::Global;

/// The greatest number of inputs, which one byte counts.
const MOST_INPUTS: usize = 255;

/// The greatest number of bytes of a script's code.
const LONGEST_CODE: u64 = 4_194_304;

/// Where a batch stands: its number, its position and the name of its root, and its block.
#[derive(Clone, Copy)]
struct Place<'a> {
    number: u32,
    at: u32,
    root: &'a Word,
    block: &'a [Stmt],
}

// The portable variables with which a batch begins: its root, and its inputs.
fn first_refs(alloc: Global, root: &Word, inputs: &[Word]) -> Result<Refs, Memory>
    requires { length inputs.now ≤ 255 }
    ensures { IfOk result (λ refs. refs_of refs ≡ meant.first_refs root.now inputs.now) }
{
    let mut refs = Refs::new(alloc);
    refs.bind(alloc, root, Referent::Root)?;
    'inputs: for i in 0..inputs.len() {
        refs.bind(alloc, &inputs[i], Referent::Input(i as u8))?;
    }
    Ok(refs)
}

// The number of the inputs of the batch at a position, or its refusal where there are too many.
fn count_inputs(at: u32, inputs: &[Word]) -> Result<u8, SplitStop>
    ensures { Gives (λ n. n) refusal_of result (counted_inputs at inputs.now) }
{
    let count = inputs.len();
    if count <= MOST_INPUTS {
        return Ok(count as u8);
    }
    match u32::try_from(count) {
        Ok(count) => Err(SplitStop::Refused(Refusal::TooManyInputs(at, count))),
        Err(_) => Err(SplitStop::Memory),
    }
}

// The division, or its refusal where the script is too large.
fn checked(split: Split) -> Result<Split, SplitStop>
    ensures divided { Gives seen refusal_of result (meant.checked_code (seen split)) }
    ensures number { IfOk result (λ s. s.batch ≡ split.batch) }
{
    let size = code_size(&split.script);
    if size > LONGEST_CODE {
        return Err(SplitStop::Refused(Refusal::ScriptTooLarge(split.at, size)));
    }
    Ok(split)
}

// The division with these inputs, as many as `count` says.
fn write(
    alloc: Global,
    x: &Facts<'_>,
    place: &Place<'_>,
    scope: &mut Scope,
    inputs: Seq<Word>,
    count: u8,
) -> Result<Split, Memory>
    requires { count ≡ length inputs }
    ensures divided { IfOk result (λ s. seen s ≡ division_at x.now place.now scope.old inputs) }
    ensures number { IfOk result (λ s. s.batch ≡ place.now.number) }
{
    let names = inputs.as_slice();
    let lists = list_numbers(alloc, scope, names)?;
    let mut refs = first_refs(alloc, place.root, names)?;
    let draft = Draft::new(alloc, 0, 0);
    let Draft { steps, parts, .. } = draft_block(alloc, x, scope, &mut refs, draft, place.block)?;
    Ok(Split {
        batch: place.number,
        at: place.at,
        inputs,
        script: Script {
            inputs: count,
            lists,
            body: steps,
        },
        remainder: parts,
    })
}

// The division of a batch whose block begins in this scope.
fn divide_from(
    alloc: Global,
    x: &Facts<'_>,
    place: &Place<'_>,
    scope: &mut Scope,
) -> Result<Split, SplitStop>
    ensures divided { Gives seen refusal_of result (divided_at x.now place.now scope.old) }
    ensures number { IfOk result (λ s. s.batch ≡ place.now.number) }
{
    let inputs = inputs_of(alloc, x, scope, place.block)?;
    let count = count_inputs(place.at, inputs.as_slice())?;
    let split = write(alloc, x, place, scope, inputs, count)?;
    checked(split)
}

/// The division of a batch that has this number. The last variable in scope where it begins is its root, whose node is the
/// batch's position.
pub fn divide(
    alloc: Global,
    x: &Facts<'_>,
    number: u32,
    batch: &OpenBatch<'_>,
) -> Result<Split, SplitStop>
    ensures divided { DividesBegun (mirror_program x.now) (begun_of batch.now) result }
    ensures number { IfOk result (λ s. s.batch ≡ number) }
{
    let Some(root) = batch.scope.newest() else {
        return Err(SplitStop::Memory);
    };
    let place = Place {
        number,
        at: root.1,
        root: root.0,
        block: batch.block,
    };
    let mut scope = batch.scope.copy(alloc)?;
    divide_from(alloc, x, &place, &mut scope)
}
