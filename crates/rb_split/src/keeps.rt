// The steps that keep what a statement takes.

#![tactic(auto, using(crate::proofs::Steps::step_rules))]

ghost use Rattle.std.specs.Prelude.{◌≡◌, IfOk, OnOk};
ghost use Rattle.rb_meaning_split.specs.Parts as meant;
ghost use Rattle.rb_split.specs.Drafts.{drafted};
ghost use Rattle.rb_split.specs.Drafting.{with_all_kept, with_one_kept};
ghost use Rattle.rb_split.specs.Views.{program_of, trees};

use crate::drafts::Draft;
use crate::exprs::script_expr;
use crate::numbers::next;
use crate::terms::Terms;
use rb_trees::{Expr, Memory, Seq, Step, StepForm};

// Adds a step that keeps the value of an expression.
fn keep(terms: &Terms<'_, '_>, draft: &mut Draft, e: &Expr) -> Result<(), Memory>
    ensures { OnOk result (drafted draft.new ≡ with_one_kept terms.now draft.old e.now) }
{
    let id = draft.step;
    let after = next(id)?;
    let value = script_expr(terms, e)?;
    let step = Step {
        id,
        at: e.at,
        form: StepForm::Keep(value),
    };
    draft.add_step(step, after, draft.var)
}

/// Adds a step for each expression that was found, which keeps its value. What is answered are the numbers of the steps, each
/// with the kind of what it keeps.
pub fn keep_all(
    terms: &Terms<'_, '_>,
    draft: &mut Draft,
    found: &[&Expr],
) -> Result<Seq<(u32, u8)>, Memory>
    ensures drafted { OnOk result (drafted draft.new ≡ with_all_kept terms.now draft.old found.now) }
    ensures takes { IfOk result (λ takes. takes ≡ meant.takes (program_of terms.now) draft.old.step (trees found.now)) }
{
    let mut takes = Seq::new(terms.alloc);
    'found: for e in found {
        let id = draft.step;
        keep(terms, draft, e)?;
        takes.push((id, terms.facts.typed().call_kind(e.at).number()))?;
    }
    Ok(takes)
}
