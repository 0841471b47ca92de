// Accessors: methods whose body gives a field of `this`, and does nothing else.

ghost use Rattle.std.specs.Prelude.{IfSome};
ghost use Rattle.rb_trees.specs.mirror.Declarations.{mirror_body};
ghost use Rattle.rb_engine.specs.Accessors.{GivesField};

use rb_heap::Heap;
use rb_trees::{Body, ExprForm, Value};

/// The value that a body gives as a method of an object, where it only reads a field of `this`: it stands in the heap, so the
/// call needs no frame. None says nothing of the body.
#[inline]
pub fn field_given<'a>(heap: &'a Heap, object: u32, body: &Body) -> Option<&'a Value>
    ensures { IfSome result (λ v. GivesField heap.now object (mirror_body body.now) v.now) }
{
    if !body.statements.is_empty() {
        return None;
    }
    let Some(result) = &body.result else {
        return None;
    };
    let ExprForm::Field(receiver, name) = &result.form else {
        return None;
    };
    let ExprForm::This = &receiver.get().form else {
        return None;
    };
    heap.get_field(object, name.as_slice())
}
