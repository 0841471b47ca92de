// Expressions as JSON.

ghost use Rattle.std.specs.Prelude.{◌≡◌, IfOk};
ghost use Rattle.rb_trees.specs.mirror.Scripts as script;
ghost use Rattle.rb_trees.specs.mirror.Scripts.{mirror_sexpr, mirror_sexprs};
ghost use Rattle.rb_meaning_bytes.specs.formats.ScriptBytes.{unary_code, binary_code};
ghost use Rattle.serde_json.specs.View.{view, items_view};
ghost use Rattle.rb_json.specs.Writes.{expr_data, exprs_data};
ghost use Rattle.rb_json.specs.Mirrors.{binary_data, call_data};

use crate::writing::values::{primitive, text};
use rb_trees::{BinOp, Invocation, Memory, Operands, SExpr, UnOp, Value};
use serde_json::Value as Json;
use std::alloc::Global;

fn unary_code(op: UnOp) -> u32
    ensures { result ≡ unary_code op }
{
    match op {
        UnOp::Not => 1,
        UnOp::Neg => 2,
        UnOp::Len => 3,
        UnOp::Str => 4,
    }
}

fn binary_code(op: BinOp) -> u32
    ensures { result ≡ binary_code op }
{
    match op {
        BinOp::Add => 1,
        BinOp::Sub => 2,
        BinOp::Mul => 3,
        BinOp::Div => 4,
        BinOp::Rem => 5,
        BinOp::Eq => 6,
        BinOp::Ne => 7,
        BinOp::Lt => 8,
        BinOp::Le => 9,
        BinOp::Gt => 10,
        BinOp::Ge => 11,
        BinOp::And => 12,
        BinOp::Or => 13,
    }
}

/// An expression.
#[cycle(write_exprs)]
#[tactic(auto, using(crate::proofs::Arrays::exprs))]
pub(crate) fn expr(alloc: Global, expr: &SExpr) -> Result<Json, Memory>
    ensures { IfOk result (λ v. view v ≡ expr_data (mirror_sexpr expr.now)) }
{
    match expr {
        SExpr::Lit(value) => literal(alloc, value.get()),
        SExpr::Input(number) => input(alloc, *number),
        SExpr::Var(number) => variable(alloc, *number),
        SExpr::Root => root(alloc),
        SExpr::Unary(op, at, operand) => unary(alloc, *op, *at, operand.get()),
        SExpr::Binary(op, at, operands) => binary(alloc, *op, *at, operands.get()),
        SExpr::Call { kind, at, call } => {
            let Invocation { target, args, .. } = call.get();
            let target = self::expr(alloc, target)?;
            let args = exprs(alloc, args.as_slice())?;
            called(alloc, (*at, *kind), call.get(), target, args)
        }
    }
}

fn literal(alloc: Global, value: &Value) -> Result<Json, Memory>
    ensures { IfOk result (λ v. view v ≡ expr_data (script.Lit value.now)) }
{
    let word = Json::try_from_str(alloc, "lit")?;
    let value = primitive(alloc, value)?;
    Ok(Json::Array(vec![in alloc; word, value]?))
}

fn input(alloc: Global, number: u8) -> Result<Json, Memory>
    ensures { IfOk result (λ v. view v ≡ expr_data (script.Input number)) }
{
    let word = Json::try_from_str(alloc, "in")?;
    Ok(Json::Array(vec![in alloc; word, Json::from(number)]?))
}

fn variable(alloc: Global, number: u32) -> Result<Json, Memory>
    ensures { IfOk result (λ v. view v ≡ expr_data (script.Var number)) }
{
    let word = Json::try_from_str(alloc, "var")?;
    Ok(Json::Array(vec![in alloc; word, Json::from(number)]?))
}

fn root(alloc: Global) -> Result<Json, Memory>
    ensures { IfOk result (λ v. view v ≡ expr_data script.Root) }
{
    let word = Json::try_from_str(alloc, "root")?;
    Ok(Json::Array(vec![in alloc; word]?))
}

#[cycle(write_exprs)]
fn unary(alloc: Global, op: UnOp, at: u32, operand: &SExpr) -> Result<Json, Memory>
    ensures { IfOk result (λ v. view v ≡ expr_data (script.Unary op at (mirror_sexpr operand.now))) }
{
    let word = Json::try_from_str(alloc, "un")?;
    let operand = expr(alloc, operand)?;
    let code = Json::from(unary_code(op));
    Ok(Json::Array(vec![in alloc; word, code, Json::from(at), operand]?))
}

#[cycle(write_exprs)]
fn binary(alloc: Global, op: BinOp, at: u32, operands: &Operands<SExpr>) -> Result<Json, Memory>
    ensures { IfOk result (λ v. view v ≡ binary_data op at operands.now) }
{
    let word = Json::try_from_str(alloc, "bin")?;
    let left = expr(alloc, &operands.left)?;
    let right = expr(alloc, &operands.right)?;
    let code = Json::from(binary_code(op));
    Ok(Json::Array(vec![in alloc; word, code, Json::from(at), left, right]?))
}

/// A call, whose target and arguments are these JSON values.
fn called(
    alloc: Global,
    head: (u32, u8),
    call: &Invocation<SExpr>,
    target: Json,
    args: Vec<Json>,
) -> Result<Json, Memory>
    requires target { view target ≡ expr_data (mirror_sexpr call.now.target) }
    requires args { items_view args.items ≡ exprs_data (mirror_sexprs call.now.args) }
    ensures { IfOk result (λ v. view v ≡ call_data head.1 head.0 call.now) }
{
    let word = Json::try_from_str(alloc, "call")?;
    let method = text(alloc, call.method.get().as_slice())?;
    let (at, kind) = (Json::from(head.0), Json::from(head.1));
    Ok(Json::Array(vec![in alloc; word, at, kind, method, target, Json::Array(args)]?))
}

/// Expressions one after another.
#[cycle(write_exprs)]
#[tactic(auto, using(crate::proofs::Arrays::lists))]
fn exprs(alloc: Global, exprs: &[SExpr]) -> Result<Vec<Json>, Memory>
    ensures { IfOk result (λ list. items_view list.items ≡ exprs_data (mirror_sexprs exprs.now)) }
{
    let mut list = Vec::new(alloc);
    for item in exprs {
        list.push(expr(alloc, item)?)?;
    }
    Ok(list)
}
