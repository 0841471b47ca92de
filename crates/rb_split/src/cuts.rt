// Copies of expressions in which what a step kept stands in the place of each remote expression.

#![tactic(auto, using(crate::proofs::CutForms::cut_rules))]

ghost use Rattle.std.specs.Prelude.{◌≡◌, suc, IfOk, OnOk};
ghost use Rattle.rb_trees.specs.mirror.Code as code;
ghost use Rattle.rb_trees.specs.mirror.Code.{mirror_expr, mirror_exprs};
ghost use Rattle.rb_trees.specs.mirror.Types.{mirror_type};
ghost use Rattle.rb_split.specs.Cutting.{all_cut_so, all_numbers_after, below_number, cut_so, number_after, parts_cut};
ghost use Rattle.rb_split.specs.Views.{facts};

use crate::numbers::next;
use rb_flow::is_portable_call;
use rb_marks::Facts;
use rb_scopes::Scope;
use rb_trees::{
    BinOp, Boxed, Expr, ExprForm, Memory, Seq, TypeTree, UnOp, Word, copy_expr, copy_type,
    copy_word,
};
use std::alloc::Global;

// What the step of a number kept. The number becomes the next one.
fn taken(alloc: Global, number: &mut u32, at: u32) -> Result<Boxed<Expr>, Memory>
    ensures taken { IfOk result (λ e. mirror_expr e ≡ code.Taken at number.old) }
    ensures number { OnOk result (number.new ≡ suc number.old) }
{
    let step = *number;
    *number = next(step)?;
    let form = ExprForm::Taken(step);
    Boxed::new(alloc, Expr { at, form })
}

// The forms whose parts are made already.
fn unary_of(alloc: Global, at: u32, op: UnOp, a: Boxed<Expr>) -> Result<Boxed<Expr>, Memory>
    ensures { IfOk result (λ e. mirror_expr e ≡ code.Unary at op (mirror_expr a)) }
{
    let form = ExprForm::Unary(op, a);
    Boxed::new(alloc, Expr { at, form })
}

fn binary_of(
    alloc: Global,
    at: u32,
    op: BinOp,
    a: Boxed<Expr>,
    b: Boxed<Expr>,
) -> Result<Boxed<Expr>, Memory>
    ensures { IfOk result (λ e. mirror_expr e ≡ code.Binary at op (mirror_expr a) (mirror_expr b)) }
{
    let form = ExprForm::Binary(op, a, b);
    Boxed::new(alloc, Expr { at, form })
}

fn index_of(alloc: Global, at: u32, a: Boxed<Expr>, b: Boxed<Expr>) -> Result<Boxed<Expr>, Memory>
    ensures { IfOk result (λ e. mirror_expr e ≡ code.Index at (mirror_expr a) (mirror_expr b)) }
{
    let form = ExprForm::Index(a, b);
    Boxed::new(alloc, Expr { at, form })
}

fn field_of(alloc: Global, at: u32, a: Boxed<Expr>, name: &Word) -> Result<Boxed<Expr>, Memory>
    ensures { IfOk result (λ e. mirror_expr e ≡ code.Field at (mirror_expr a) name.now) }
{
    let name = copy_word(alloc, name)?;
    let form = ExprForm::Field(a, name);
    Boxed::new(alloc, Expr { at, form })
}

fn call_of(
    alloc: Global,
    at: u32,
    receiver: Boxed<Expr>,
    method: &Word,
    args: Seq<Expr>,
) -> Result<Boxed<Expr>, Memory>
    ensures { IfOk result (λ e. mirror_expr e ≡ code.Call at (mirror_expr receiver) method.now (mirror_exprs args)) }
{
    let method = copy_word(alloc, method)?;
    let form = ExprForm::Call(receiver, method, args);
    Boxed::new(alloc, Expr { at, form })
}

fn new_of(alloc: Global, at: u32, class: &Word, args: Seq<Expr>) -> Result<Boxed<Expr>, Memory>
    ensures { IfOk result (λ e. mirror_expr e ≡ code.New at class.now (mirror_exprs args)) }
{
    let class = copy_word(alloc, class)?;
    let form = ExprForm::New(class, args);
    Boxed::new(alloc, Expr { at, form })
}

fn items_of(
    alloc: Global,
    at: u32,
    item: &TypeTree,
    items: Seq<Expr>,
) -> Result<Boxed<Expr>, Memory>
    ensures { IfOk result (λ e. mirror_expr e ≡ code.Items at (mirror_type item.now) (mirror_exprs items)) }
{
    let item = copy_type(alloc, item)?;
    let form = ExprForm::Items(item, items);
    Boxed::new(alloc, Expr { at, form })
}

/// An expression without its remote ones: `cut`. They are numbered from `number` on, which becomes the number after them.
#[cycle(cuts)]
pub fn cut(
    alloc: Global,
    x: &Facts<'_>,
    scope: &Scope,
    number: &mut u32,
    e: &Expr,
) -> Result<Boxed<Expr>, Memory>
    ensures cut { IfOk result (λ c. mirror_expr c ≡ cut_so (facts x.now) scope.now number.old e.now) }
    ensures number { OnOk result (number.new ≡ number_after (facts x.now) scope.now number.old (mirror_expr e.now)) }
{
    if is_portable_call(x, scope, e) {
        return taken(alloc, number, e.at);
    }
    cut_parts(alloc, x, scope, number, e)
}

// The same of its parts alone.
#[cycle(cuts)]
fn cut_parts(
    alloc: Global,
    x: &Facts<'_>,
    scope: &Scope,
    number: &mut u32,
    e: &Expr,
) -> Result<Boxed<Expr>, Memory>
    ensures cut { IfOk result (λ c. mirror_expr c ≡ parts_cut (facts x.now) scope.now number.old (mirror_expr e.now)) }
    ensures number { OnOk result (number.new ≡ below_number (facts x.now) scope.now number.old (mirror_expr e.now)) }
{
    match &e.form {
        ExprForm::Lit(_) | ExprForm::Name(_) | ExprForm::This | ExprForm::Taken(_) => {
            Boxed::new(alloc, copy_expr(alloc, e)?)
        }
        ExprForm::Unary(op, a) => {
            unary_of(alloc, e.at, *op, cut(alloc, x, scope, number, a.get())?)
        }
        ExprForm::Field(a, name) => {
            field_of(alloc, e.at, cut(alloc, x, scope, number, a.get())?, name)
        }
        ExprForm::Binary(op, a, b) => {
            let a = cut(alloc, x, scope, number, a.get())?;
            let b = cut(alloc, x, scope, number, b.get())?;
            binary_of(alloc, e.at, *op, a, b)
        }
        ExprForm::Index(a, b) => {
            let a = cut(alloc, x, scope, number, a.get())?;
            let b = cut(alloc, x, scope, number, b.get())?;
            index_of(alloc, e.at, a, b)
        }
        ExprForm::Call(a, method, args) => {
            let a = cut(alloc, x, scope, number, a.get())?;
            let args = cut_all(alloc, x, scope, number, args.as_slice())?;
            call_of(alloc, e.at, a, method, args)
        }
        ExprForm::New(class, args) => {
            let args = cut_all(alloc, x, scope, number, args.as_slice())?;
            new_of(alloc, e.at, class, args)
        }
        ExprForm::Items(item, items) => {
            let items = cut_all(alloc, x, scope, number, items.as_slice())?;
            items_of(alloc, e.at, item, items)
        }
    }
}

// The same of expressions, from left to right.
#[cycle(cuts)]
fn cut_all(
    alloc: Global,
    x: &Facts<'_>,
    scope: &Scope,
    number: &mut u32,
    es: &[Expr],
) -> Result<Seq<Expr>, Memory>
    ensures cut { IfOk result (λ cs. mirror_exprs cs ≡ all_cut_so (facts x.now) scope.now number.old es.now) }
    ensures number { OnOk result (number.new ≡ all_numbers_after (facts x.now) scope.now number.old (mirror_exprs es.now)) }
{
    let mut cuts = Seq::new(alloc);
    'exprs: for e in es {
        cuts.push(cut(alloc, x, scope, number, e)?.into_inner())?;
    }
    Ok(cuts)
}
