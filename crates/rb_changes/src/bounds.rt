// Whether the values of changes are within their bounds.

ghost use Rattle.std.specs.Prelude.{◌≡◌, true};
ghost use Rattle.rb_trees.specs.declared.values.Value.{out-Value};
ghost use Rattle.rb_meaning_types.specs.Values.{IsInt, IsText};
ghost use Rattle.rb_meaning.specs.Changes.{IsBounded, AreBounded, AllBounded};

use rb_trees::{Change, Seq, Value};

/// How many bytes a text has at most.
const LONGEST_TEXT: usize = 4096;

fn is_text(text: &[u8]) -> bool
    ensures { result ≡ true → IsText text.now }
{
    text.len() <= LONGEST_TEXT && str::from_utf8(text).is_ok()
}

// Each number of 64 bits is.
fn is_int(number: i64) -> bool
    ensures { result ≡ true → IsInt number }
{
    let _number = number;
    true
}

fn is_bounded(value: &Value) -> bool
    ensures { result ≡ true → IsBounded (out-Value value.now) }
{
    match value {
        Value::Unit => true,
        Value::Int(number) => is_int(*number),
        Value::Bool(_) => true,
        Value::Text(text) => is_text(text.get().as_slice()),
        Value::List(_) => true,
        Value::Ref(_) => true,
        Value::Remote(_) => true,
        Value::Rows(_) => true,
    }
}

fn is_list_bounded(changes: &[Change]) -> bool
    ensures { result ≡ true → AreBounded changes.now }
{
    'changes: for change in changes {
        if !is_bounded(&change.value) {
            return false;
        }
    }
    true
}

/// Whether each change has a value that is within its bounds: a Text is UTF-8 of at most 4,096 bytes. Whoever takes changes wants
/// such values.
pub fn are_bounded(lists: &[Seq<Change>]) -> bool
    ensures { result ≡ true → AllBounded lists.now }
{
    'lists: for list in lists {
        if !is_list_bounded(list.as_slice()) {
            return false;
        }
    }
    true
}
