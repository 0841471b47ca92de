// The answer for one batch.

ghost use Rattle.std.specs.Prelude.{◌≡◌, [], IfOk};
ghost use Rattle.rb_trees.specs.mirror.Code.{mirror_stmts};
ghost use Rattle.rb_meaning_flow.specs.Chains.{PositionsDiffer};
ghost use Rattle.rb_meaning_flow.specs.Sites.{block_sites};
ghost use Rattle.rb_flow.specs.Views.{facts};
ghost use Rattle.rb_flow.specs.Answers as words;

use crate::chain::least_chain;
use crate::earliest::place;
use crate::findings::Findings;
use crate::standing::{Reading, Standing};
use crate::statements::walk_stmts;
use rb_marks::Facts;
use rb_scopes::Scope;
use rb_trees::{BadPart, Memory, Refusal, Seq, Stmt, Writer};
use std::alloc::Global;

// What stands around the statements of a batch itself.
fn outermost_standing(alloc: Global) -> Standing
    ensures { result ≡ words.outermost_standing }
{
    Standing {
        script: true,
        condition: None,
        tried: false,
        around: Reading::new(alloc),
    }
}

fn no_findings(alloc: Global) -> Findings
    ensures { result ≡ words.no_findings }
{
    Findings {
        first: None,
        writers: Seq::new(alloc),
        part: None,
    }
}

// What is found in a batch that begins with this scope.
#[tactic(auto, using(crate::proofs::Answered::block_found))]
fn find(alloc: Global, x: &Facts<'_>, scope: &mut Scope, block: &[Stmt]) -> Result<Findings, Memory>
    ensures { IfOk result (λ f. f ≡ words.batch_found (facts x.now) (block_sites (facts x.now) [] scope.old (mirror_stmts block.now))) }
{
    let mut found = no_findings(alloc);
    let standing = outermost_standing(alloc);
    walk_stmts(alloc, x, &standing, scope, &mut found, block)?;
    Ok(found)
}

// The refusal of a bad part: the least chain to it, or that there is none.
fn flow_refusal(alloc: Global, writers: &[Writer], part: &BadPart) -> Result<Refusal, Memory>
    requires { PositionsDiffer writers.now }
    ensures { IfOk result (words.IsFlowRefusal writers.now part.now) }
{
    match least_chain(alloc, writers, part)? {
        Some(chain) => Ok(Refusal::Flow(chain)),
        None => Ok(Refusal::NotConstant(part.at)),
    }
}

fn stands_before(first: &Option<Refusal>, at: u32) -> bool
    ensures { result ≡ words.stands_before first.now at }
{
    match first {
        Some(r) => place(r) < at,
        None => false,
    }
}

// The first refusal of single sites, or that of the bad part where it stands before.
fn decide_between(
    alloc: Global,
    first: Option<Refusal>,
    writers: &[Writer],
    part: &Option<BadPart>,
) -> Result<Option<Refusal>, Memory>
    requires { PositionsDiffer writers.now }
    ensures { IfOk result (words.IsDecided first writers.now part.now) }
{
    match part {
        Some(part) => {
            if stands_before(&first, part.at) {
                Ok(first)
            } else {
                let refusal = flow_refusal(alloc, writers, part)?;
                Ok(Some(refusal))
            }
        }
        None => Ok(first),
    }
}

fn decide(alloc: Global, found: &mut Findings) -> Result<Option<Refusal>, Memory>
    requires { PositionsDiffer found.old.writers }
    ensures { IfOk result (words.IsDecided found.old.first found.old.writers found.old.part) }
{
    let first = found.first.take();
    decide_between(alloc, first, found.writers.as_slice(), &found.part)
}

/// The answer for a batch that begins with this scope: a refusal before which there is none, or None
/// where it has no refusal. The rules stand in `specs/Refusals` of `rb_meaning_flow`.
pub fn answer(
    alloc: Global,
    x: &Facts<'_>,
    scope: &mut Scope,
    block: &[Stmt],
) -> Result<Option<Refusal>, Memory>
    requires { words.SitesDiffer (facts x.now) (block_sites (facts x.now) [] scope.old (mirror_stmts block.now)) }
    ensures { IfOk result (words.IsBatchAnswer (facts x.now) (block_sites (facts x.now) [] scope.old (mirror_stmts block.now))) }
{
    let mut found = find(alloc, x, scope, block)?;
    decide(alloc, &mut found)
}
