// Types as texts.

use rb_trees::{Memory, TypeForm, Word};
use rb_types::Typed;

/// A type by its outermost form, a class or an interface by its name.
fn kind_name(kind: &TypeForm) -> &[u8] {
    match kind {
        TypeForm::Int => b"Int",
        TypeForm::Bool => b"Bool",
        TypeForm::Text => b"Text",
        TypeForm::Unit => b"Unit",
        TypeForm::Named(name) => name.as_slice(),
        TypeForm::ListOf(_) => b"List",
        TypeForm::RowsOf(_) => b"Rows",
    }
}

/// Adds the type of the expression at a position, or that none stands there.
pub fn add_type_at(typed: &Typed, at: u32, into: &mut Word) -> Result<(), Memory> {
    match typed.type_of(at) {
        Some(kind) => into.extend_from_slice(kind_name(kind)),
        None => into.extend_from_slice(b"none"),
    }
}
