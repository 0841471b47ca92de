// The faults of rules.

ghost use Rattle.std.specs.Prelude.{◌≡◌};
ghost use Rattle.rb_meaning_code.specs.Faults as faults;
ghost use Rattle.rb_meaning_code.specs.Faults.{plain_fault};
ghost use Rattle.rb_engine.specs.declared.ends.Failure.TheVariants as failure;

use crate::ends::Failure;
use rb_trees::{Fault, Seq, fault_codes};
use std::alloc::Global;
use std::marker::Model;

/// A fault without a text, kept as its code. Contracts see the fault.
#[derive(Drop)]
pub struct PlainFault {
    alloc: Global,
    code: u8,
}

impl Model for PlainFault {
    ghost use Rattle.rb_trees.specs.declared.values.Fault as the_fault;
    ghost use Rattle.rb_trees.specs.contracts.values.Fault as fault_code;
    ghost use Rattle.rb_meaning_code.specs.Faults.{plain_fault};

    ghost Value = { the_fault.Fault };

    ghost coded = { fault_code.the_row.coded };

    ghost view = { λ f. plain_fault f.code };
}

impl PlainFault {
    /// The fault of a code, one of the [`fault_codes`].
    #[inline]
    pub fn of(alloc: Global, code: u8) -> PlainFault
        ensures { result ≡ plain_fault code }
    {
        PlainFault { alloc, code }
    }

    /// The fault as data.
    pub fn into_fault(self) -> Fault
        ensures { result ≡ self }
    {
        let PlainFault { alloc, code } = self;
        Fault {
            code,
            text: Seq::new(alloc),
        }
    }

    // Where its memory comes from, if it takes any.
    pub(crate) fn alloc(&self) -> Global {
        self.alloc
    }
}

// The fault of a code, as a rule says it.
#[inline]
fn refuse(alloc: Global, code: u8) -> Failure
    ensures { result ≡ failure.Fault (plain_fault code) }
{
    Failure::Fault(PlainFault::of(alloc, code))
}

/// A division by 0, or its remainder.
pub fn division_by_zero(alloc: Global) -> Failure
    ensures { result ≡ failure.Fault faults.division_by_zero }
{
    refuse(alloc, fault_codes::DIVISION_BY_ZERO)
}

/// An index below 0, or not below the list's length.
pub fn index_outside(alloc: Global) -> Failure
    ensures { result ≡ failure.Fault faults.index_outside }
{
    refuse(alloc, fault_codes::INDEX_OUTSIDE)
}

/// A joined text that would be too long.
pub fn text_too_long(alloc: Global) -> Failure
    ensures { result ≡ failure.Fault faults.text_too_long }
{
    refuse(alloc, fault_codes::TEXT_TOO_LONG)
}

/// A list that would be too long.
pub fn list_too_long(alloc: Global) -> Failure
    ensures { result ≡ failure.Fault faults.list_too_long }
{
    refuse(alloc, fault_codes::LIST_TOO_LONG)
}

/// A new object where the heap is full.
pub fn heap_full(alloc: Global) -> Failure
    ensures { result ≡ failure.Fault faults.heap_full }
{
    refuse(alloc, fault_codes::HEAP_FULL)
}

/// A call where too many are active.
pub fn too_deep(alloc: Global) -> Failure
    ensures { result ≡ failure.Fault faults.too_deep }
{
    refuse(alloc, fault_codes::TOO_DEEP)
}

/// A unit of fuel where none is left.
pub fn fuel_used(alloc: Global) -> Failure
    ensures { result ≡ failure.Fault faults.fuel_used }
{
    refuse(alloc, fault_codes::FUEL_USED)
}

/// A remote call that finds no object, or no method of its name there.
pub fn no_method(alloc: Global) -> Failure
    ensures { result ≡ failure.Fault faults.no_method }
{
    refuse(alloc, fault_codes::NO_METHOD)
}

/// A remote call whose arguments don't fit the parameters.
pub fn bad_arguments(alloc: Global) -> Failure
    ensures { result ≡ failure.Fault faults.bad_arguments }
{
    refuse(alloc, fault_codes::BAD_ARGUMENTS)
}

/// A remote call whose result isn't of the kind that is promised.
pub fn wrong_kind(alloc: Global) -> Failure
    ensures { result ≡ failure.Fault faults.wrong_kind }
{
    refuse(alloc, fault_codes::WRONG_KIND)
}

/// Something of a wrong kind, or that isn't there.
pub fn kind(alloc: Global) -> Failure
    ensures { result ≡ failure.Fault faults.kind }
{
    refuse(alloc, fault_codes::KIND)
}
