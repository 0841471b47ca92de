// The steps and the parts of the statements of a batch.

#![tactic(auto, using(crate::proofs::Steps::step_rules))]

ghost use Rattle.std.specs.Prelude.{◌≡◌, take, length, IfOk, OnOk};
ghost use Rattle.rb_trees.specs.mirror.Code.{mirror_expr};
ghost use Rattle.rb_trees.specs.mirror.Declarations.{mirror_program};
ghost use Rattle.rb_trees.specs.mirror.Remainders.{mirror_part};
ghost use Rattle.rb_trees.specs.mirror.Scripts.{mirror_step};
ghost use Rattle.rb_meaning_split.specs.Parts as meant;
ghost use Rattle.rb_meaning_split.specs.Steps.{keeps_val};
ghost use Rattle.rb_split.specs.Drafts.{drafted};
ghost use Rattle.rb_split.specs.Drafting.{let_of, do_of, if_of, each_of, over_of, over_part, with_plain, with_carried, with_do};
ghost use Rattle.rb_split.specs.Drafting.{with_branch, with_turns, with_over, with_stmt, with_stmts, with_turn, refs_behind};
ghost use Rattle.rb_split.specs.Views.{refs_of, scope_behind};

use crate::drafts::Draft;
use crate::exprs::script_expr;
use crate::keeps::keep_all;
use crate::loops::{Loop, list_name};
use crate::numbers::next;
use crate::plain::cut_stmt;
use crate::refs::{Referent, Refs};
use crate::remote::remote_of;
use crate::scopes::bind_plain;
use crate::terms::Terms;
use rb_flow::placed_form;
use rb_marks::{Facts, holds_call};
use rb_meaning_flow::{PlacedForm, Role};
use rb_scopes::Scope;
use rb_trees::{
    Expr, Memory, Part, Seq, Step, StepForm, Stmt, StmtForm, Word, copy_expr, copy_word,
};
use std::alloc::Global;

// A statement that is left to the client, without its remote expressions.
fn draft_plain(
    terms: &Terms<'_, '_>,
    scope: &Scope,
    draft: &mut Draft,
    s: &Stmt,
) -> Result<(), Memory>
    ensures { OnOk result (drafted draft.new ≡ with_plain terms.now scope.now draft.old s.now) }
{
    let stmt = cut_stmt(terms.alloc, terms.facts, scope, draft.step, s)?;
    let found = remote_of(terms.alloc, terms.facts, scope, s)?;
    let takes = keep_all(terms, draft, found.as_slice())?;
    draft.add_part(Part::Plain(stmt, takes))
}

// Whether the value of a carried val is kept.
fn keeps_value(x: &Facts<'_>, e: &Expr) -> bool
    ensures { result ≡ keeps_val (mirror_program x.now) (mirror_expr e.now) }
{
    holds_call(x, e) && x.is_primitive(e)
}

// The part of a carried val.
fn carried_part(
    alloc: Global,
    x: &Facts<'_>,
    step: u32,
    at: u32,
    name: &Word,
    e: &Expr,
) -> Result<Part, Memory>
    ensures { IfOk result (λ q. mirror_part q ≡ meant.carried (mirror_program x.now) step at name.now (mirror_expr e.now)) }
{
    if !x.is_primitive(e) {
        return Ok(Part::Pass(step));
    }
    let name = copy_word(alloc, name)?;
    if holds_call(x, e) {
        let kind = x.typed().call_kind(e.at).number();
        return Ok(Part::Bind { step, name, kind });
    }
    let value = copy_expr(alloc, e)?;
    Ok(Part::Both {
        step,
        at,
        name,
        value,
    })
}

// The step of a carried val, with its number and that of its variable.
fn let_step(terms: &Terms<'_, '_>, id: u32, var: u32, at: u32, e: &Expr) -> Result<Step, Memory>
    ensures { IfOk result (λ s. mirror_step s ≡ let_of terms.now id var at e.now) }
{
    let value = script_expr(terms, e)?;
    let keep = keeps_value(terms.facts, e);
    Ok(Step {
        id,
        at,
        form: StepForm::Let { var, keep, value },
    })
}

// A carried val.
fn draft_carried(
    terms: &Terms<'_, '_>,
    draft: &mut Draft,
    at: u32,
    name: &Word,
    e: &Expr,
) -> Result<(), Memory>
    ensures { OnOk result (drafted draft.new ≡ with_carried terms.now draft.old at name.now e.now) }
{
    let (id, var) = (draft.step, draft.var);
    let after = next(id)?;
    let later = next(var)?;
    let part = carried_part(terms.alloc, terms.facts, id, at, name, e)?;
    draft.add_part(part)?;
    let step = let_step(terms, id, var, at, e)?;
    draft.add_step(step, after, later)
}

// The step of a remote expression alone.
fn do_step(terms: &Terms<'_, '_>, id: u32, at: u32, e: &Expr) -> Result<Step, Memory>
    ensures { IfOk result (λ s. mirror_step s ≡ do_of terms.now id at e.now) }
{
    let expr = script_expr(terms, e)?;
    Ok(Step {
        id,
        at,
        form: StepForm::Do(expr),
    })
}

// A remote expression alone.
fn draft_do(terms: &Terms<'_, '_>, draft: &mut Draft, at: u32, e: &Expr) -> Result<(), Memory>
    ensures { OnOk result (drafted draft.new ≡ with_do terms.now draft.old at e.now) }
{
    let id = draft.step;
    let after = next(id)?;
    draft.add_part(Part::Pass(id))?;
    let step = do_step(terms, id, at, e)?;
    draft.add_step(step, after, draft.var)
}

// The step of a carried `if`, with its blocks.
fn if_step(
    terms: &Terms<'_, '_>,
    id: u32,
    at: u32,
    c: &Expr,
    yes: Seq<Step>,
    no: Seq<Step>,
) -> Result<Step, Memory>
    ensures { IfOk result (λ s. mirror_step s ≡ if_of terms.now id at c.now yes no) }
{
    let condition = script_expr(terms, c)?;
    Ok(Step {
        id,
        at,
        form: StepForm::If(condition, yes, no),
    })
}

// A carried `if` whose blocks are drafted already.
fn close_branch(
    terms: &Terms<'_, '_>,
    draft: &mut Draft,
    at: u32,
    c: &Expr,
    yes: Draft,
    no: Draft,
) -> Result<(), Memory>
    ensures { OnOk result (drafted draft.new ≡ with_branch terms.now draft.old at c.now yes no) }
{
    let id = draft.step;
    let (after, var) = (no.step, no.var);
    let step = if_step(terms, id, at, c, yes.steps, no.steps)?;
    draft.add_step(step, after, var)?;
    draft.add_part(Part::Branch {
        step: id,
        yes: yes.parts,
        no: no.parts,
    })
}

// The step of a loop over rows, with its block.
fn each_step(
    terms: &Terms<'_, '_>,
    id: u32,
    var: u32,
    at: u32,
    e: &Expr,
    body: Seq<Step>,
) -> Result<Step, Memory>
    ensures { IfOk result (λ s. mirror_step s ≡ each_of terms.now id var at e.now body) }
{
    let rows = script_expr(terms, e)?;
    let keep = terms.facts.has_primitive_items(e);
    Ok(Step {
        id,
        at,
        form: StepForm::Each {
            var,
            keep,
            rows,
            body,
        },
    })
}

// A loop over rows whose block is drafted already.
fn close_turns(
    terms: &Terms<'_, '_>,
    draft: &mut Draft,
    at: u32,
    name: &Word,
    e: &Expr,
    body: Draft,
) -> Result<(), Memory>
    ensures { OnOk result (drafted draft.new ≡ with_turns terms.now draft.old at name.now e.now body) }
{
    let (id, var) = (draft.step, draft.var);
    let (after, later) = (body.step, body.var);
    let step = each_step(terms, id, var, at, e, body.steps)?;
    draft.add_step(step, after, later)?;
    let name = copy_word(terms.alloc, name)?;
    draft.add_part(Part::Turns {
        step: id,
        name,
        kind: terms.facts.typed().call_kind(e.at).row_number(),
        body: body.parts,
    })
}

// The step of a carried loop, with its block.
fn over_step(
    terms: &Terms<'_, '_>,
    id: u32,
    var: u32,
    at: u32,
    list: &Expr,
    body: Seq<Step>,
) -> Step
    ensures { mirror_step result ≡ over_of terms.now id var at list.now body }
{
    let input = terms.refs.list_number(list);
    Step {
        id,
        at,
        form: StepForm::Over { var, input, body },
    }
}

// The part of a carried loop, with its block. Its list stands by its name.
#[tactic(auto, using(crate::proofs::Lists::part_named, crate::proofs::Steps::step_rules))]
fn over_part(
    terms: &Terms<'_, '_>,
    step: u32,
    at: u32,
    name: &Word,
    list: &Expr,
    body: Seq<Part>,
) -> Result<Part, Memory>
    ensures { IfOk result (λ q. mirror_part q ≡ over_part terms.now step at name.now list.now body) }
{
    let Some(list) = list_name(list) else {
        return Ok(Part::Pass(step));
    };
    Ok(Part::Over {
        step,
        at,
        name: copy_word(terms.alloc, name)?,
        list: copy_word(terms.alloc, list)?,
        input: terms.refs.input_number(list),
        body,
    })
}

// A carried loop whose block is drafted already.
fn close_over(
    terms: &Terms<'_, '_>,
    draft: &mut Draft,
    at: u32,
    name: &Word,
    list: &Expr,
    body: Draft,
) -> Result<(), Memory>
    ensures { OnOk result (drafted draft.new ≡ with_over terms.now draft.old at name.now list.now body) }
{
    let (id, var) = (draft.step, draft.var);
    let (after, later) = (body.step, body.var);
    let step = over_step(terms, id, var, at, list, body.steps);
    draft.add_step(step, after, later)?;
    let part = over_part(terms, id, at, name, list, body.parts)?;
    draft.add_part(part)
}

// A statement at a script place, and what it declares.
#[cycle(walking)]
#[tactic(auto, using(crate::proofs::Walked::stmt_rules))]
fn draft_stmt(
    alloc: Global,
    x: &Facts<'_>,
    scope: &mut Scope,
    refs: &mut Refs,
    draft: &mut Draft,
    s: &Stmt,
) -> Result<(), Memory>
    ensures drafted { OnOk result (drafted draft.new ≡ with_stmt x.now refs.old scope.old draft.old s.now) }
    ensures scope { OnOk result (scope.new ≡ scope_behind x.now scope.old s.now) }
    ensures refs { OnOk result (refs_of refs.new ≡ refs_behind x.now refs.old scope.old draft.old s.now) }
    ensures kept { OnOk result (take (length refs.old) refs.new ≡ refs.old) }
{
    match (&s.form, placed_form(x, scope, s)) {
        (StmtForm::Val(name, e), PlacedForm::CarriedVal) => {
            let var = draft.var;
            draft_carried(&Terms::of(alloc, x, refs), draft, s.at, name, e)?;
            refs.bind(alloc, name, Referent::Var(var))?;
            scope.bind(alloc, name, Role::Carried, s.at)
        }
        (StmtForm::Run(e), PlacedForm::CallAlone) => {
            draft_do(&Terms::of(alloc, x, refs), draft, s.at, e)
        }
        (StmtForm::If(c, a, b), PlacedForm::CarriedIf) => {
            let yes = Draft::new(alloc, next(draft.step)?, draft.var);
            let yes = draft_block(alloc, x, scope, refs, yes, a.as_slice())?;
            let no = Draft::new(alloc, yes.step, yes.var);
            let no = draft_block(alloc, x, scope, refs, no, b.as_slice())?;
            close_branch(&Terms::of(alloc, x, refs), draft, s.at, c, yes, no)
        }
        (StmtForm::For(name, e, a), PlacedForm::RowsLoop) => {
            let turns = Loop::of(s.at, name, a);
            let body = draft_turn(alloc, x, scope, refs, draft, &turns)?;
            close_turns(&Terms::of(alloc, x, refs), draft, s.at, name, e, body)
        }
        (StmtForm::For(name, e, a), PlacedForm::CarriedLoop) => {
            let turns = Loop::of(s.at, name, a);
            let body = draft_turn(alloc, x, scope, refs, draft, &turns)?;
            close_over(&Terms::of(alloc, x, refs), draft, s.at, name, e, body)
        }
        _ => {
            draft_plain(&Terms::of(alloc, x, refs), scope, draft, s)?;
            bind_plain(alloc, scope, s)
        }
    }
}

/// A block behind what is drafted already. Its variables go at its end.
#[cycle(walking)]
#[tactic(auto, using(crate::proofs::Walked::block_rules))]
pub fn draft_block(
    alloc: Global,
    x: &Facts<'_>,
    scope: &mut Scope,
    refs: &mut Refs,
    draft: Draft,
    ss: &[Stmt],
) -> Result<Draft, Memory>
    ensures drafted { IfOk result (λ d. drafted d ≡ with_stmts x.now refs.old scope.old draft ss.now) }
    ensures scope { OnOk result (scope.new ≡ scope.old) }
    ensures refs { OnOk result (refs.new ≡ refs.old) }
{
    let variables = scope.len();
    let names = refs.len();
    let mut draft = draft;
    draft_all(alloc, x, scope, refs, &mut draft, ss)?;
    scope.truncate(variables);
    refs.truncate(names);
    Ok(draft)
}

// The block of a loop that stands behind a draft, with the loop's variable, which is the next one.
#[cycle(walking)]
#[tactic(auto, using(crate::proofs::Walked::block_rules))]
fn draft_turn(
    alloc: Global,
    x: &Facts<'_>,
    scope: &mut Scope,
    refs: &mut Refs,
    draft: &Draft,
    turns: &Loop<'_>,
) -> Result<Draft, Memory>
    ensures drafted { IfOk result (λ d. drafted d ≡ with_turn x.now refs.old scope.old draft.now turns.now) }
    ensures scope { OnOk result (scope.new ≡ scope.old) }
    ensures refs { OnOk result (refs.new ≡ refs.old) }
{
    let variables = scope.len();
    let names = refs.len();
    let mut body = Draft::new(alloc, next(draft.step)?, next(draft.var)?);
    refs.bind(alloc, turns.name, Referent::Var(draft.var))?;
    scope.bind(alloc, turns.name, Role::Row, turns.at)?;
    draft_all(alloc, x, scope, refs, &mut body, turns.block)?;
    scope.truncate(variables);
    refs.truncate(names);
    Ok(body)
}

// The statements of a block, in order.
#[cycle(walking)]
#[tactic(auto, using(crate::proofs::Walked::block_rules))]
fn draft_all(
    alloc: Global,
    x: &Facts<'_>,
    scope: &mut Scope,
    refs: &mut Refs,
    draft: &mut Draft,
    ss: &[Stmt],
) -> Result<(), Memory>
    ensures drafted { OnOk result (drafted draft.new ≡ with_stmts x.now refs.old scope.old draft.old ss.now) }
    ensures scope { OnOk result (take (length scope.old) scope.new ≡ scope.old) }
    ensures refs { OnOk result (take (length refs.old) refs.new ≡ refs.old) }
{
    'stmts: for s in ss {
        draft_stmt(alloc, x, scope, refs, draft, s)?;
    }
    Ok(())
}
