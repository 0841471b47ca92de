// Whether the numbers that literals refer to are those of objects.
#![tactic(auto, using(crate::proofs::Rules::rules))]

ghost use Rattle.std.specs.Prelude.{◌≡◌};
ghost use Rattle.rb_trees.specs.mirror.Services.{mirror_literal, mirror_literals};
ghost use Rattle.rb_meaning_types.specs.Stores as stores;
ghost use Rattle.rb_store.specs.Views.{objects_of};

use crate::indexed::IndexedText;
use rb_trees::Literal;

/// Whether each number that a literal refers to is one that some object is written with: `refers_well`.
#[cycle(literal_references)]
pub fn refers_well(text: &IndexedText, literal: &Literal) -> bool
    ensures { result ≡ stores.refers_well (objects_of text.now) (mirror_literal literal.now) }
{
    match literal {
        Literal::Int(_) | Literal::Bool(_) | Literal::Text(_) => true,
        Literal::Object(number) => text.find_written(*number).is_some(),
        Literal::Items(items) => all_refer_well(text, items.as_slice()),
    }
}

#[cycle(literal_references)]
fn all_refer_well(text: &IndexedText, literals: &[Literal]) -> bool
    ensures { result ≡ stores.all_refer_well (objects_of text.now) (mirror_literals literals.now) }
{
    for literal in literals {
        if !refers_well(text, literal) {
            return false;
        }
    }
    true
}
