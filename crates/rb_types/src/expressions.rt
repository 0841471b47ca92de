// The types of expressions.

#![tactic(auto, using(crate::proofs::Rules::rules))]

ghost use Rattle.std.specs.Prelude.{◌≡◌};
ghost use Rattle.std.specs.Option.{option_copied};
ghost use Rattle.rb_trees.specs.mirror.Types.{mirror_type};
ghost use Rattle.rb_trees.specs.mirror.Code.{mirror_expr, mirror_exprs};
ghost use Rattle.rb_meaning_types.specs.Kinds as kinds;
ghost use Rattle.rb_meaning_types.specs.Kinds.{kind_of_form};
ghost use Rattle.rb_meaning_types.specs.Expressions as expressions;
ghost use Rattle.rb_types.specs.Checks.{Passes, Types, Finds};
ghost use Rattle.rb_types.specs.Steps as steps;
ghost use Rattle.rb_types.specs.Views.{declarations_of, context_of, scope_of, placed_of, all_placed};

use crate::checker::Checker;
use crate::context::{Context, Declarations};
use crate::kinds::{Placed, copy_kind, literal_kind, wanted};
use crate::members::{call_kind, field_kind, new_kind};
use crate::operators::{binary_kind, index_kind, unary_kind};
use crate::places::item_type;
use crate::scope::Scope;
use rb_trees::{
    Boxed, Expr, ExprForm, Seq, TypeError, TypeForm, TypeTree, Word, copy_type, copy_word,
};
use std::alloc::Global;

fn name_kind(alloc: Global, scope: &Scope, at: u32, name: &Word) -> Result<TypeForm, TypeError>
    ensures { Types result (expressions.name_kind (scope_of scope.now) at name.now) }
{
    match scope.find(name) {
        Some(variable) => copy_kind(alloc, &variable.kind),
        None => Err(TypeError::UnknownName(at)),
    }
}

fn this_kind(alloc: Global, this: Option<&Word>, at: u32) -> Result<TypeForm, TypeError>
    ensures { Types result (expressions.this_kind (option_copied this.entry) at) }
{
    match this {
        Some(class) => Ok(TypeForm::Named(copy_word(alloc, class)?)),
        None => Err(TypeError::UnknownName(at)),
    }
}

fn all_wanted(alloc: Global, kind: &TypeForm, items: &[Placed]) -> Result<(), TypeError>
    ensures { Passes result (expressions.all_wanted (kind_of_form kind.now) (all_placed items.now)) }
{
    for item in items {
        wanted(alloc, kind, item)?;
    }
    Ok(())
}

fn list_of(alloc: Global, item: &TypeTree) -> Result<TypeForm, TypeError>
    ensures { Types result (Ok (kinds.ListOf (kinds.kind_of (mirror_type item.now)))) }
{
    let item = copy_type(alloc, item)?;
    Ok(TypeForm::ListOf(Boxed::new(alloc, item)?))
}

fn items_kind(
    alloc: Global,
    d: &Declarations,
    item: &TypeTree,
    items: &[Placed],
) -> Result<TypeForm, TypeError>
    ensures { Types result (expressions.items_kind (declarations_of d.now) (mirror_type item.now) (all_placed items.now)) }
{
    item_type(d, item)?;
    all_wanted(alloc, &item.form, items)?;
    list_of(alloc, item)
}

impl Checker {
    /// The type of an expression at its position, or the first violation in it. What the judgement gives
    /// to it and its parts goes to the notes.
    #[cycle(exprs)]
    #[tactic(auto, using(crate::proofs::ExprRules::expr_rules))]
    pub fn check_expr(&mut self, x: &Context, e: &Expr) -> Result<Placed, TypeError>
        ensures { Finds placed_of (steps.expr (context_of x.now) (mirror_expr e.now)) self.old result self.new }
    {
        let kind = self.expr_kind(x, e)?;
        self.note(e.at, &kind)?;
        Ok(Placed { at: e.at, kind })
    }

    #[cycle(exprs)]
    #[tactic(auto, using(crate::proofs::ExprRules::expr_rules))]
    fn expr_kind(&mut self, x: &Context, e: &Expr) -> Result<TypeForm, TypeError>
        ensures { Finds kind_of_form (steps.kind (context_of x.now) (mirror_expr e.now)) self.old result self.new }
    {
        let alloc = self.alloc;
        let at = e.at;
        match &e.form {
            ExprForm::Lit(value) => Ok(literal_kind(value)),
            ExprForm::Name(name) => name_kind(alloc, &self.scope, at, name),
            ExprForm::This => this_kind(alloc, x.this, at),
            ExprForm::Unary(op, a) => {
                let p = self.check_expr(x, a.get())?;
                unary_kind(alloc, *op, &p)
            }
            ExprForm::Binary(op, a, b) => {
                let p = self.check_expr(x, a.get())?;
                let q = self.check_expr(x, b.get())?;
                binary_kind(alloc, *op, &p, &q)
            }
            ExprForm::Field(a, name) => {
                let p = self.check_expr(x, a.get())?;
                field_kind(alloc, x.declared, at, name, &p)
            }
            ExprForm::Call(a, method, args) => {
                let p = self.check_expr(x, a.get())?;
                let args = self.check_exprs(x, args.as_slice())?;
                call_kind(alloc, x, at, method, &p, args.as_slice())
            }
            ExprForm::Index(a, b) => {
                let p = self.check_expr(x, a.get())?;
                let q = self.check_expr(x, b.get())?;
                index_kind(alloc, &p, &q)
            }
            ExprForm::New(class, args) => {
                let args = self.check_exprs(x, args.as_slice())?;
                new_kind(alloc, x.declared, at, class, args.as_slice())
            }
            ExprForm::Items(item, items) => {
                let items = self.check_exprs(x, items.as_slice())?;
                items_kind(alloc, x.declared, item, items.as_slice())
            }
            ExprForm::Taken(_) => Err(TypeError::NotAllowedHere(at)),
        }
    }

    #[cycle(exprs)]
    #[tactic(auto, using(crate::proofs::ExprRules::expr_rules))]
    fn check_exprs(&mut self, x: &Context, es: &[Expr]) -> Result<Seq<Placed>, TypeError>
        ensures { Finds all_placed (steps.exprs (context_of x.now) (mirror_exprs es.now)) self.old result self.new }
    {
        let mut placed = Seq::new(self.alloc);
        for e in es {
            let p = self.check_expr(x, e)?;
            placed.push(p)?;
        }
        Ok(placed)
    }
}
