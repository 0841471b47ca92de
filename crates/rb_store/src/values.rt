// The values that literals stand for.
#![tactic(auto, using(crate::proofs::Rules::small_rules))]

ghost use Rattle.std.specs.Prelude.{◌≡◌, ◌^◌, true, IfOk};
ghost use Rattle.rb_trees.specs.mirror.Services.{mirror_literal, mirror_literals};
ghost use Rattle.rb_trees.specs.declared.values.Value.TheVariants as values;
ghost use Rattle.rb_meaning_types.specs.Stores as stores;
ghost use Rattle.rb_store.specs.Referred.{is_below, are_below};

use rb_trees::{Literal, Memory, Seq, Shared, Value, Word, copy_word};
use std::alloc::Global;

fn text_value(alloc: Global, text: &Word) -> Result<Value, Memory>
    ensures { IfOk result (λ v. v ≡ values.Text text.now) }
{
    let text = copy_word(alloc, text)?;
    Ok(Value::Text(Shared::new(alloc, text)?))
}

fn list_value(alloc: Global, items: Seq<Value>) -> Result<Value, Memory>
    ensures { IfOk result (λ v. v ≡ values.List items) }
{
    Ok(Value::List(Shared::new(alloc, items)?))
}

// The items of a list, as a slice whose numbers are known to be small.
fn small_items(items: &Seq<Literal>) -> &[Literal]
    requires { are_below (2 ^ 32) (mirror_literals items.now) ≡ true }
    ensures same { result.now ≡ items.now }
    ensures below { are_below (2 ^ 32) (mirror_literals result.now) ≡ true }
{
    items.as_slice()
}

/// The value of a literal: `value_of`.
#[cycle(literal_values)]
pub fn value_of(alloc: Global, literal: &Literal) -> Result<Value, Memory>
    requires { is_below (2 ^ 32) (mirror_literal literal.now) ≡ true }
    ensures { IfOk result (λ v. v ≡ stores.value_of (mirror_literal literal.now)) }
{
    match literal {
        Literal::Int(number) => Ok(Value::Int(*number)),
        Literal::Bool(truth) => Ok(Value::Bool(*truth)),
        Literal::Text(text) => text_value(alloc, text),
        Literal::Object(number) => Ok(Value::Ref(*number as u32)),
        Literal::Items(items) => list_value(alloc, values_of(alloc, small_items(items))?),
    }
}

#[cycle(literal_values)]
fn values_of(alloc: Global, literals: &[Literal]) -> Result<Seq<Value>, Memory>
    requires { are_below (2 ^ 32) (mirror_literals literals.now) ≡ true }
    ensures { IfOk result (λ vs. vs ≡ stores.values_of (mirror_literals literals.now)) }
{
    let mut values = Seq::new(alloc);
    for literal in literals {
        values.push(value_of(alloc, literal)?)?;
    }
    Ok(values)
}
