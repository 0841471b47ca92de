// Changes applied to a heap.

ghost use Rattle.std.specs.Prelude.{◌≡◌, OnOk, OnErr};
ghost use Rattle.rb_trees.specs.declared.values.Value.{out-Value};
ghost use Rattle.rb_meaning.specs.Changes as words;
ghost use Rattle.rb_meaning.specs.Changes.{changed, all_changed};
ghost use Rattle.rb_changes.specs.Applied.{AppliesFront, is_taken};

use rb_heap::{Heap, SetStop};
use rb_trees::{Change, Memory, Value, copy_value};

// Whether two values are primitive and of one kind.
fn are_alike(old: &Value, new: &Value) -> bool
    ensures { result ≡ words.are_alike (out-Value old.now) (out-Value new.now) }
{
    match (old, new) {
        (Value::Int(_), Value::Int(_)) => true,
        (Value::Bool(_), Value::Bool(_)) => true,
        (Value::Text(_), Value::Text(_)) => true,
        _ => false,
    }
}

// Whether a change isn't skipped.
fn is_taken(heap: &Heap, change: &Change) -> bool
    ensures { result ≡ is_taken change.now heap.now }
{
    match heap.get_field(change.object, change.field.as_slice()) {
        Some(old) => are_alike(old, &change.value),
        None => false,
    }
}

/// Applies a change: `changed`. Its error is want of memory, after which nothing changed.
pub fn apply(heap: &mut Heap, change: &Change) -> Result<(), Memory>
    ensures ok { OnOk result (heap.new ≡ changed change.now heap.old) }
    ensures err { OnErr result (heap.new ≡ heap.old) }
{
    if !is_taken(heap, change) {
        return Ok(());
    }
    let value = copy_value(&change.value)?;
    match heap.set_field(change.object, change.field.as_slice(), value) {
        Ok(()) => Ok(()),
        Err(SetStop::Missing(_)) => Ok(()),
        Err(SetStop::Memory) => Err(Memory),
    }
}

/// Applies changes in order: `all_changed`. Its error is want of memory, after which some of the first changes were applied,
/// and no others.
pub fn apply_all(heap: &mut Heap, changes: &[Change]) -> Result<(), Memory>
    ensures ok { OnOk result (heap.new ≡ all_changed changes.now heap.old) }
    ensures err { OnErr result (AppliesFront changes.now heap.old heap.new) }
{
    'changes: for change in changes {
        apply(heap, change)?;
    }
    Ok(())
}
