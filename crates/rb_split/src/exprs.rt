// Portable expressions as expressions of a script.

#![tactic(auto, using(crate::proofs::Scripted::script_rules))]

ghost use Rattle.std.specs.Prelude.{◌≡◌, IfOk};
ghost use Rattle.std.specs.Option.{option_map};
ghost use Rattle.rb_trees.specs.mirror.Scripts as script;
ghost use Rattle.rb_trees.specs.mirror.Scripts.{mirror_sexpr, mirror_sexprs};
ghost use Rattle.rb_meaning_split.specs.Refs.{ref_expr};
ghost use Rattle.rb_split.specs.Views.{all_in_script, in_script, ref_of};

use crate::refs::Referent;
use crate::terms::Terms;
use rb_trees::{
    BinOp, Boxed, Expr, ExprForm, Invocation, Memory, Operands, SExpr, Seq, Shared, UnOp, Word,
    copy_value, copy_word,
};
use std::alloc::Global;

// A portable variable in a script.
fn of_target(target: Option<Referent>) -> SExpr
    ensures { mirror_sexpr result ≡ ref_expr (option_map ref_of target) }
{
    match target {
        Some(Referent::Root) => SExpr::Root,
        Some(Referent::Input(number)) => SExpr::Input(number),
        Some(Referent::Var(number)) => SExpr::Var(number),
        None => SExpr::Root,
    }
}

// A call whose parts are made already.
fn call_of(
    alloc: Global,
    at: u32,
    kind: u8,
    method: &Word,
    target: SExpr,
    args: Seq<SExpr>,
) -> Result<SExpr, Memory>
    ensures { IfOk result (λ e. mirror_sexpr e ≡ script.Call at kind method.now (mirror_sexpr target) (mirror_sexprs args)) }
{
    let call = Invocation {
        method: Shared::new(alloc, copy_word(alloc, method)?)?,
        target,
        args,
    };
    let call = Boxed::new(alloc, call)?;
    Ok(SExpr::Call { kind, at, call })
}

// An operator whose operand is made already.
fn unary_of(alloc: Global, op: UnOp, at: u32, a: SExpr) -> Result<SExpr, Memory>
    ensures { IfOk result (λ e. mirror_sexpr e ≡ script.Unary op at (mirror_sexpr a)) }
{
    let a = Boxed::new(alloc, a)?;
    Ok(SExpr::Unary(op, at, a))
}

// The same between two.
fn binary_of(alloc: Global, op: BinOp, at: u32, a: SExpr, b: SExpr) -> Result<SExpr, Memory>
    ensures { IfOk result (λ e. mirror_sexpr e ≡ script.Binary op at (mirror_sexpr a) (mirror_sexpr b)) }
{
    let operands = Operands { left: a, right: b };
    Ok(SExpr::Binary(op, at, Boxed::new(alloc, operands)?))
}

/// A portable expression in a script: `sexpr`.
#[cycle(portables)]
pub fn script_expr(terms: &Terms<'_, '_>, e: &Expr) -> Result<SExpr, Memory>
    ensures { IfOk result (λ s. mirror_sexpr s ≡ in_script terms.now e.now) }
{
    match &e.form {
        ExprForm::Lit(value) => Ok(SExpr::Lit(Boxed::new(terms.alloc, copy_value(value)?)?)),
        ExprForm::Name(name) => Ok(of_target(terms.refs.find(name))),
        ExprForm::Unary(op, a) => {
            let a = script_expr(terms, a.get())?;
            unary_of(terms.alloc, *op, e.at, a)
        }
        ExprForm::Binary(op, a, b) => {
            let a = script_expr(terms, a.get())?;
            let b = script_expr(terms, b.get())?;
            binary_of(terms.alloc, *op, e.at, a, b)
        }
        ExprForm::Call(a, method, args) => {
            let target = script_expr(terms, a.get())?;
            let args = script_exprs(terms, args.as_slice())?;
            call_of(
                terms.alloc,
                e.at,
                terms.facts.typed().call_kind(e.at).number(),
                method,
                target,
                args,
            )
        }
        ExprForm::This | ExprForm::Field(_, _) | ExprForm::Index(_, _) => Ok(SExpr::Root),
        ExprForm::New(_, _) | ExprForm::Items(_, _) | ExprForm::Taken(_) => Ok(SExpr::Root),
    }
}

#[cycle(portables)]
fn script_exprs(terms: &Terms<'_, '_>, es: &[Expr]) -> Result<Seq<SExpr>, Memory>
    ensures { IfOk result (λ ss. mirror_sexprs ss ≡ all_in_script terms.now es.now) }
{
    let mut made = Seq::new(terms.alloc);
    'exprs: for e in es {
        made.push(script_expr(terms, e)?)?;
    }
    Ok(made)
}
