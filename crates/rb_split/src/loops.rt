// Loops whose turns are the script's.

ghost use Rattle.std.specs.Prelude.{◌≡◌};
ghost use Rattle.std.specs.Option.{option_copied, option_to_list};
ghost use Rattle.rb_trees.specs.mirror.Code.{mirror_expr};
ghost use Rattle.rb_meaning.specs.ConstantLists.{name_of};

use rb_trees::{Expr, ExprForm, Seq, Stmt, Word};

/// The name of a list, where it stands by one.
#[tactic(auto, using(rb_trees::proofs::mirror::Exprs::exprs))]
pub fn list_name(list: &Expr) -> Option<&Word>
    ensures { option_to_list (option_copied result) ≡ name_of (mirror_expr list.now) }
{
    match &list.form {
        ExprForm::Name(name) => Some(name),
        ExprForm::Lit(_) | ExprForm::This | ExprForm::Unary(_, _) => None,
        ExprForm::Binary(_, _, _) | ExprForm::Field(_, _) | ExprForm::Index(_, _) => None,
        ExprForm::Call(_, _, _) | ExprForm::New(_, _) => None,
        ExprForm::Items(_, _) | ExprForm::Taken(_) => None,
    }
}

/// A loop over rows or over a constant list, without these: its position, the name of its variable, and its block.
#[derive(Clone, Copy)]
pub struct Loop<'a> {
    pub at: u32,
    pub name: &'a Word,
    pub block: &'a [Stmt],
}

impl<'a> Loop<'a> {
    /// The loop at this position, with this variable and this block.
    pub fn of(at: u32, name: &'a Word, block: &'a Seq<Stmt>) -> Loop<'a>
        ensures at { result.at ≡ at }
        ensures name { result.name.now ≡ name.now }
        ensures block { result.block.now ≡ block.now }
    {
        Loop {
            at,
            name,
            block: block.as_slice(),
        }
    }
}
