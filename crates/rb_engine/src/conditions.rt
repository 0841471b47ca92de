// Conditions, what is thrown, and what is caught.
#![tactic(auto, using(crate::proofs::Values::values))]

ghost use Rattle.std.specs.Prelude.{◌≡◌, [], ◌∷◌, ◌++◌, IfOk};
ghost use Rattle.rb_trees.specs.Outcome.{Gives};
ghost use Rattle.rb_trees.specs.declared.values.Value.{out-Value};
ghost use Rattle.rb_meaning_code.specs.Faults as faults;
ghost use Rattle.rb_meaning_code.specs.Faults.{caught_text, raised};
ghost use Rattle.rb_meaning_code.specs.Statements as rules;
ghost use Rattle.rb_engine.specs.Ends.{fault_of, EndsBy, UnlessMemory, NeverWants};
ghost use Rattle.rb_engine.specs.Shown.{remote_form, shown_or_kind, name_of_code};

use crate::ends::{End, Failure, raise};
use crate::faults::kind;
use crate::frame::Frame;
use crate::names::bind;
use crate::operators::{bool_text, number_text, text_value};
use rb_trees::{Fault, Memory, Raised, Seq, Value, Word, copy_word, fault_codes};
use std::alloc::Global;

/// The truth of a condition's value: `truth_of`.
#[inline]
pub fn truth_in(alloc: Global, value: &Value) -> Result<bool, Failure>
    ensures gives { Gives (λ holds. holds) fault_of result (rules.truth_of (out-Value value.now)) }
    ensures memory { NeverWants result }
{
    match value {
        Value::Bool(holds) => Ok(*holds),
        _ => Err(kind(alloc)),
    }
}

/// The truth of a condition's value, which is let go: `truth_of`.
#[inline(never)]
pub fn truth_of(alloc: Global, value: Value) -> Result<bool, Failure>
    ensures gives { Gives (λ holds. holds) fault_of result (rules.truth_of (out-Value value)) }
    ensures memory { NeverWants result }
{
    truth_in(alloc, &value)
}

/// Whether a value is remote.
pub fn is_remote(value: &Value) -> bool
    ensures { result ≡ remote_form (out-Value value.now) }
{
    match value {
        Value::Remote(_) => true,
        _ => false,
    }
}

// The fault that `throw` ends by: `throws`.
fn thrown(alloc: Global, value: &Value) -> Result<Fault, Memory>
    ensures { IfOk result (λ fault. fault ≡ rules.throws (out-Value value.now)) }
{
    match value {
        Value::Text(text) => Ok(Fault {
            code: fault_codes::THROWN,
            text: copy_word(alloc, text.get())?,
        }),
        _ => Ok(Fault {
            code: fault_codes::KIND,
            text: Seq::new(alloc),
        }),
    }
}

/// How code ends by a `throw` at a position.
#[inline(never)]
pub fn throw<X>(alloc: Global, at: u32, value: &Value) -> End<X>
    ensures { EndsBy (raised (rules.throws (out-Value value.now)) at) result }
{
    match thrown(alloc, value) {
        Ok(fault) => raise(
            alloc,
            Raised {
                fault,
                at,
                remote: false,
            },
        ),
        Err(_) => End::NoMemory,
    }
}

/// The line that `print` shows of a value.
pub fn shown(alloc: Global, value: &Value) -> Result<Word, Failure>
    ensures { Gives (λ line. line) fault_of result (shown_or_kind (out-Value value.now)) }
{
    match value {
        Value::Int(number) => Ok(number_text(alloc, *number)?),
        Value::Bool(truth) => Ok(bool_text(alloc, *truth)?),
        Value::Text(text) => Ok(copy_word(alloc, text.get())?),
        _ => Err(kind(alloc)),
    }
}

/// Whether a fault is caught: `is_caught`.
pub fn is_caught(raised: &Raised) -> bool
    ensures { result ≡ faults.is_caught raised.now }
{
    raised.remote || raised.fault.code != fault_codes::FUEL_USED
}

// The name of a fault's code.
fn name_of(code: u8) -> &'static [u8]
    ensures { result.now ≡ name_of_code code }
{
    match code {
        0 | fault_codes::DIVISION_BY_ZERO => b"DivZero",
        fault_codes::INDEX_OUTSIDE => b"Index",
        fault_codes::TEXT_TOO_LONG => b"TextTooLong",
        fault_codes::LIST_TOO_LONG => b"ListTooLong",
        fault_codes::HEAP_FULL => b"HeapFull",
        fault_codes::TOO_DEEP => b"TooDeep",
        fault_codes::FUEL_USED => b"FuelUsed",
        fault_codes::THROWN => b"Thrown",
        fault_codes::NO_METHOD => b"NoMethod",
        fault_codes::BAD_ARGUMENTS => b"BadArguments",
        fault_codes::WRONG_KIND => b"WrongKind",
        fault_codes::KIND => b"Kind",
        fault_codes::INPUT_TOO_LARGE => b"InputTooLarge",
        _ => b"",
    }
}

// What a `catch` binds: `caught_text`.
fn text_of(alloc: Global, fault: &Fault) -> Result<Word, Memory>
    ensures { IfOk result (λ text. text ≡ caught_text fault.now) }
{
    if fault.code == fault_codes::THROWN {
        copy_word(alloc, &fault.text)
    } else {
        Seq::from_slice(alloc, name_of(fault.code))
    }
}

// What a `catch` binds, as a value.
fn caught_value(alloc: Global, fault: &Fault) -> Result<Value, Memory>
    ensures { IfOk result (λ v. v ≡ Value.Text (caught_text fault.now)) }
{
    text_value(alloc, text_of(alloc, fault)?)
}

/// Binds a name to what is caught of a fault.
#[inline(never)]
pub fn bind_caught<X>(
    alloc: Global,
    frame: &mut Frame,
    name: &Word,
    fault: &Fault,
) -> Result<(), End<X>>
    ensures { UnlessMemory result (λ u. frame.new ≡ frame.old ++ (name.now, Value.Text (caught_text fault.now)) ∷ []) }
{
    match caught_value(alloc, fault) {
        Ok(value) => bind(alloc, frame, name, value),
        Err(_) => Err(End::NoMemory),
    }
}
