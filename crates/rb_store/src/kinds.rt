// Whether literals are of a type.
#![tactic(auto, using(crate::proofs::Rules::rules))]

ghost use Rattle.std.specs.Prelude.{◌≡◌};
ghost use Rattle.rb_trees.specs.mirror.Services.{mirror_literal, mirror_literals};
ghost use Rattle.rb_meaning_types.specs.Kinds.{kind_of_form};
ghost use Rattle.rb_meaning_types.specs.Stores as stores;
ghost use Rattle.rb_store.specs.Views.{objects_of};

use crate::indexed::IndexedText;
use rb_names::same_name;
use rb_trees::limits::LONGEST_LIST;
use rb_trees::{Literal, TypeForm, Word};

fn is_int_literal(literal: &Literal) -> bool
    ensures { result ≡ stores.is_int_literal (mirror_literal literal.now) }
{
    match literal {
        Literal::Int(_) => true,
        Literal::Bool(_) | Literal::Text(_) | Literal::Object(_) | Literal::Items(_) => false,
    }
}

fn is_bool_literal(literal: &Literal) -> bool
    ensures { result ≡ stores.is_bool_literal (mirror_literal literal.now) }
{
    match literal {
        Literal::Bool(_) => true,
        Literal::Int(_) | Literal::Text(_) | Literal::Object(_) | Literal::Items(_) => false,
    }
}

fn is_text_literal(literal: &Literal) -> bool
    ensures { result ≡ stores.is_text_literal (mirror_literal literal.now) }
{
    match literal {
        Literal::Text(_) => true,
        Literal::Int(_) | Literal::Bool(_) | Literal::Object(_) | Literal::Items(_) => false,
    }
}

// Whether what is written with a number may be of a class; it may where nothing is.
fn may_be_of(text: &IndexedText, class: &Word, number: u64) -> bool
    ensures { result ≡ stores.may_be_of class.now (stores.class_written (objects_of text.now) number) }
{
    match text.find_written(number) {
        Some(written) => same_name(written, class),
        None => true,
    }
}

fn is_reference_to(text: &IndexedText, class: &Word, literal: &Literal) -> bool
    ensures { result ≡ stores.is_reference_to (objects_of text.now) class.now (mirror_literal literal.now) }
{
    match literal {
        Literal::Object(number) => may_be_of(text, class, *number),
        Literal::Int(_) | Literal::Bool(_) | Literal::Text(_) | Literal::Items(_) => false,
    }
}

/// Whether a literal is of a type: `is_of_kind`.
#[cycle(literal_kinds)]
pub fn is_of_kind(text: &IndexedText, kind: &TypeForm, literal: &Literal) -> bool
    ensures { result ≡ stores.is_of_kind (objects_of text.now) (kind_of_form kind.now) (mirror_literal literal.now) }
{
    match kind {
        TypeForm::Int => is_int_literal(literal),
        TypeForm::Bool => is_bool_literal(literal),
        TypeForm::Text => is_text_literal(literal),
        TypeForm::Named(class) => is_reference_to(text, class, literal),
        TypeForm::ListOf(item) => are_items(text, &item.get().form, literal),
        TypeForm::Unit | TypeForm::RowsOf(_) => false,
    }
}

// Whether a literal is a list of items of a type.
#[cycle(literal_kinds)]
fn are_items(text: &IndexedText, item: &TypeForm, literal: &Literal) -> bool
    ensures { result ≡ stores.are_items (stores.is_of_kind (objects_of text.now) (kind_of_form item.now)) (mirror_literal literal.now) }
{
    match literal {
        Literal::Items(items) => {
            items.len() <= LONGEST_LIST && all_of_kind(text, item, items.as_slice())
        }
        Literal::Int(_) | Literal::Bool(_) | Literal::Text(_) | Literal::Object(_) => false,
    }
}

#[cycle(literal_kinds)]
fn all_of_kind(text: &IndexedText, kind: &TypeForm, literals: &[Literal]) -> bool
    ensures { let fits = stores.is_of_kind (objects_of text.now) (kind_of_form kind.now) in
        result ≡ stores.all_literals fits (mirror_literals literals.now) }
{
    for literal in literals {
        if !is_of_kind(text, kind, literal) {
            return false;
        }
    }
    true
}
