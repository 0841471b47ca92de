// What remote calls have to give, by the types of the calls.

#![tactic(auto, using(rb_meaning_types::proofs::TypeForms::kinds))]

ghost use Rattle.std.specs.Prelude.{◌≡◌};
ghost use Rattle.rb_trees.specs.CallKinds as numbers;
ghost use Rattle.rb_trees.specs.mirror.Declarations.{mirror_program};
ghost use Rattle.rb_meaning_types.specs.CallKinds as meant;
ghost use Rattle.rb_meaning_types.specs.Kinds.{kind_of_form};

use crate::typed::Typed;
use rb_trees::{CallKind, Item, TypeForm};

// What a single value of a type is; what isn't primitive is an object of the service.
fn item_of(kind: &TypeForm) -> Item
    ensures { numbers.item_number result ≡ meant.item_number (kind_of_form kind.now) }
{
    match kind {
        TypeForm::Int => Item::Int,
        TypeForm::Bool => Item::Bool,
        TypeForm::Text => Item::Text,
        TypeForm::Unit | TypeForm::Named(_) => Item::Object,
        TypeForm::ListOf(_) | TypeForm::RowsOf(_) => Item::Object,
    }
}

// What a call of this type has to give.
fn kind_of(kind: &TypeForm) -> CallKind
    ensures { numbers.kind_number result ≡ meant.kind_number (kind_of_form kind.now) }
{
    match kind {
        TypeForm::Unit => CallKind::Nothing,
        TypeForm::RowsOf(row) => CallKind::Rows(item_of(&row.get().form)),
        TypeForm::Int | TypeForm::Bool | TypeForm::Text => CallKind::One(item_of(kind)),
        TypeForm::Named(_) | TypeForm::ListOf(_) => CallKind::One(item_of(kind)),
    }
}

impl Typed {
    /// What the remote call at a position has to give; nothing where no expression stands there.
    pub fn call_kind(&self, at: u32) -> CallKind
        ensures { numbers.kind_number result ≡ meant.call_kind (mirror_program self.now) at }
    {
        match self.type_of(at) {
            Some(kind) => kind_of(kind),
            None => CallKind::Nothing,
        }
    }
}
