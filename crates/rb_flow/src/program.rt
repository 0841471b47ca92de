// The answer for all batches of a program.

ghost use Rattle.std.specs.Prelude.{◌≡◌, map, IfOk};
ghost use Rattle.rb_trees.specs.mirror.Declarations.{mirror_program};
ghost use Rattle.rb_meaning_flow.specs.Programs as programs;
ghost use Rattle.rb_flow.specs.Begun.{begun_of, begun_sites};
ghost use Rattle.rb_flow.specs.Answers.{SitesDiffer, IsBatchAnswer};
ghost use Rattle.rb_flow.specs.Program as words;
ghost use Rattle.rb_flow.specs.Views.{facts};

use crate::batch::answer;
use crate::earliest::earlier_of;
use crate::loops::carried_loops;
use crate::outermost::{OpenBatch, collect_batches};
use rb_marks::Facts;
use rb_trees::{Memory, Refusal, Seq};
use rb_types::Typed;
use std::alloc::Global;

fn with_answer(first: Option<Refusal>, answer: Option<Refusal>) -> Option<Refusal>
    ensures { result ≡ words.with_answer first answer }
{
    match answer {
        Some(r) => earlier_of(first, r),
        None => first,
    }
}

fn answer_one(alloc: Global, x: &Facts<'_>, batch: OpenBatch) -> Result<Option<Refusal>, Memory>
    requires { SitesDiffer (facts x.now) (begun_sites (facts x.now) (begun_of batch)) }
    ensures { IfOk result (IsBatchAnswer (facts x.now) (begun_sites (facts x.now) (begun_of batch.entry))) }
{
    let OpenBatch { scope, block } = batch;
    let mut scope = scope;
    answer(alloc, x, &mut scope, block)
}

fn answer_all(
    alloc: Global,
    x: &Facts<'_>,
    batches: Vec<OpenBatch>,
) -> Result<Option<Refusal>, Memory>
    requires { words.AllDiffer (facts x.now) (map begun_of batches.items) }
    ensures { IfOk result (words.IsAnswerAmong (facts x.now) (map begun_of batches.entry.items)) }
{
    let mut rest = batches;
    let mut first = None;
    while let Some(last) = rest.pop() {
        let found = answer_one(alloc, x, last)?;
        first = with_answer(first, found);
    }
    Ok(first)
}

/// The answer for a program, a refusal before which there is none, or None where it has no refusal; and the positions of
/// its carried loops.
pub fn program_answer(alloc: Global, typed: &Typed) -> Result<(Option<Refusal>, Seq<u32>), Memory>
    ensures answer { IfOk result (λ r. words.IsProgramAnswer (mirror_program typed.now) r.0) }
    ensures loops { IfOk result (λ r. r.1 ≡ programs.carried_loops (mirror_program typed.now)) }
{
    let x = Facts::new(alloc, typed)?;
    let batches = collect_batches(alloc, &x, typed.program())?;
    let loops = carried_loops(alloc, &x, batches.as_slice())?;
    let answer = answer_all(alloc, &x, batches.into_vec())?;
    Ok((answer, loops))
}
