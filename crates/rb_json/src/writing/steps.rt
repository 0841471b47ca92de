// Steps as JSON.

ghost use Rattle.std.specs.Prelude.{◌≡◌, codes, IfOk};
ghost use Rattle.rb_trees.specs.mirror.Scripts as script;
ghost use Rattle.rb_trees.specs.mirror.Scripts.{mirror_sexpr, mirror_step, mirror_steps, mirror_step_form};
ghost use Rattle.serde_json.specs.Data.{array, boolean, item, no_items};
ghost use Rattle.serde_json.specs.View.{view, items_view};
ghost use Rattle.rb_json.specs.Writes.{expr_data, headed, numeral, step_data, steps_data};

use crate::writing::exprs::expr;
use rb_trees::{Memory, SExpr, Step, StepForm};
use serde_json::Value as Json;
use std::alloc::Global;

/// The number of a step, and its position.
type Head = (u32, u32);

/// A step.
#[cycle(write_steps)]
#[tactic(auto, using(crate::proofs::Arrays::steps))]
fn step(alloc: Global, step: &Step) -> Result<Json, Memory>
    ensures { IfOk result (λ v. view v ≡ step_data (mirror_step step.now)) }
{
    form(alloc, (step.id, step.at), &step.form)
}

/// The step of this form.
#[cycle(write_steps)]
#[tactic(auto, using(crate::proofs::Arrays::steps))]
fn form(alloc: Global, head: Head, form: &StepForm) -> Result<Json, Memory>
    ensures { IfOk result (λ v. view v ≡ step_data (mirror_step_form form.now head.0 head.1)) }
{
    match form {
        StepForm::Do(value) => performed(alloc, "do", head, value),
        StepForm::Keep(value) => performed(alloc, "keep", head, value),
        StepForm::Let { var, keep, value } => bound(alloc, head, *var, *keep, value),
        StepForm::If(condition, yes, no) => {
            let yes = steps(alloc, yes.as_slice())?;
            let no = steps(alloc, no.as_slice())?;
            chosen(alloc, head, condition, yes, no)
        }
        StepForm::Each {
            var,
            keep,
            rows,
            body,
        } => {
            let body = steps(alloc, body.as_slice())?;
            each(alloc, head, (*var, *keep), rows, body)
        }
        StepForm::Over { var, input, body } => {
            let body = steps(alloc, body.as_slice())?;
            over(alloc, head, *var, *input, body)
        }
    }
}

/// A step that performs an expression, with its word.
fn performed(alloc: Global, word: &str, head: Head, value: &SExpr) -> Result<Json, Memory>
    ensures { IfOk result (λ v. view v ≡ headed word.now head.0 head.1 (item (expr_data (mirror_sexpr value.now)) no_items)) }
{
    let word = Json::try_from_str(alloc, word)?;
    let value = expr(alloc, value)?;
    Ok(Json::Array(vec![in alloc; word, Json::from(head.0), Json::from(head.1), value]?))
}

/// A step that binds a variable.
fn bound(alloc: Global, head: Head, var: u32, keep: bool, value: &SExpr) -> Result<Json, Memory>
    ensures { IfOk result (λ v. view v ≡ step_data (script.Let head.0 head.1 var keep (mirror_sexpr value.now))) }
{
    let word = Json::try_from_str(alloc, "let")?;
    let value = expr(alloc, value)?;
    let (id, at, var) = (Json::from(head.0), Json::from(head.1), Json::from(var));
    Ok(Json::Array(vec![in alloc; word, id, at, var, Json::Bool(keep), value]?))
}

/// A step that chooses a block.
fn chosen(
    alloc: Global,
    head: Head,
    condition: &SExpr,
    yes: Vec<Json>,
    no: Vec<Json>,
) -> Result<Json, Memory>
    ensures { IfOk result (λ v. view v ≡ headed (codes "if") head.0 head.1 (item (expr_data (mirror_sexpr condition.now))
        (item (array (items_view yes.items)) (item (array (items_view no.items)) no_items)))) }
{
    let (yes, no) = (Json::Array(yes), Json::Array(no));
    let condition = expr(alloc, condition)?;
    let word = Json::try_from_str(alloc, "if")?;
    let (id, at) = (Json::from(head.0), Json::from(head.1));
    Ok(Json::Array(vec![in alloc; word, id, at, condition, yes, no]?))
}

/// A step that goes through rows, with the variable and whether it is kept.
fn each(
    alloc: Global,
    head: Head,
    var: (u32, bool),
    rows: &SExpr,
    body: Vec<Json>,
) -> Result<Json, Memory>
    ensures { IfOk result (λ v. view v ≡ headed (codes "each") head.0 head.1 (item (numeral var.0) (item (boolean var.1)
        (item (expr_data (mirror_sexpr rows.now)) (item (array (items_view body.items)) no_items))))) }
{
    let (body, keep) = (Json::Array(body), Json::Bool(var.1));
    let rows = expr(alloc, rows)?;
    let word = Json::try_from_str(alloc, "each")?;
    let (id, at, var) = (Json::from(head.0), Json::from(head.1), Json::from(var.0));
    Ok(Json::Array(vec![in alloc; word, id, at, var, keep, rows, body]?))
}

/// A step that goes through a list input.
fn over(alloc: Global, head: Head, var: u32, input: u8, body: Vec<Json>) -> Result<Json, Memory>
    ensures { IfOk result (λ v. view v ≡ headed (codes "over") head.0 head.1
        (item (numeral var) (item (numeral input) (item (array (items_view body.items)) no_items)))) }
{
    let body = Json::Array(body);
    let word = Json::try_from_str(alloc, "over")?;
    let (id, at) = (Json::from(head.0), Json::from(head.1));
    let (var, input) = (Json::from(var), Json::from(input));
    Ok(Json::Array(vec![in alloc; word, id, at, var, input, body]?))
}

/// Steps one after another.
#[cycle(write_steps)]
#[tactic(auto, using(crate::proofs::Arrays::lists))]
pub(crate) fn steps(alloc: Global, steps: &[Step]) -> Result<Vec<Json>, Memory>
    ensures { IfOk result (λ list. items_view list.items ≡ steps_data (mirror_steps steps.now)) }
{
    let mut list = Vec::new(alloc);
    for item in steps {
        list.push(step(alloc, item)?)?;
    }
    Ok(list)
}
