// The text of types.

ghost use Rattle.rb_trees.specs.mirror.Types.{mirror_type};
ghost use Rattle.rb_trees.specs.printing.Pieces.{Adds};
ghost use Rattle.rb_trees.specs.printing.Types.{type_pieces, result_pieces, list_pieces};

use crate::code::{TypeForm, TypeTree};
use crate::sequence::Word;
use crate::want::Memory;

/// Adds a type.
#[tactic(auto, using(crate::proofs::printed::Types::printed_types))]
pub fn print_type(kind: &TypeTree, into: &mut Word) -> Result<(), Memory>
    ensures { Adds (type_pieces (mirror_type kind.now)) into.old result into.new }
{
    match &kind.form {
        TypeForm::Int => into.extend_from_slice(b"Int"),
        TypeForm::Bool => into.extend_from_slice(b"Bool"),
        TypeForm::Text => into.extend_from_slice(b"Text"),
        TypeForm::Unit => into.extend_from_slice(b"Unit"),
        TypeForm::Named(name) => into.extend_from_slice(name.as_slice()),
        TypeForm::ListOf(item) => {
            into.extend_from_slice(b"List<")?;
            print_type(item.get(), into)?;
            into.extend_from_slice(b">")
        }
        TypeForm::RowsOf(row) => {
            into.extend_from_slice(b"Rows<")?;
            print_type(row.get(), into)?;
            into.extend_from_slice(b">")
        }
    }
}

/// Adds a result type with its colon. Unit adds nothing.
#[tactic(auto, using(crate::proofs::printed::Types::printed_types))]
pub fn print_result(kind: &TypeTree, into: &mut Word) -> Result<(), Memory>
    ensures { Adds (result_pieces (mirror_type kind.now)) into.old result into.new }
{
    match &kind.form {
        TypeForm::Unit => Ok(()),
        TypeForm::Int
        | TypeForm::Bool
        | TypeForm::Text
        | TypeForm::Named(_)
        | TypeForm::ListOf(_)
        | TypeForm::RowsOf(_) => {
            into.extend_from_slice(b": ")?;
            print_type(kind, into)
        }
    }
}

/// Adds the type of a list, by the type of its items.
#[tactic(auto, using(crate::proofs::printed::Types::printed_types))]
pub fn print_list_type(item: &TypeTree, into: &mut Word) -> Result<(), Memory>
    ensures { Adds (list_pieces (mirror_type item.now)) into.old result into.new }
{
    into.extend_from_slice(b"List<")?;
    print_type(item, into)?;
    into.extend_from_slice(b">")
}
