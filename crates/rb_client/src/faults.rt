// The faults that are raised while a remainder is performed.

ghost use Rattle.std.specs.Prelude.{◌≡◌, IfOk};
ghost use Rattle.rb_meaning_code.specs.Faults as causes;
ghost use Rattle.rb_meaning_split.specs.Replay as meant;
ghost use Rattle.rb_wire_forest.specs.Fronts.{fault_seen};

use rb_trees::{Boxed, Fault, Memory, Raised, Seq, fault_codes};
use rb_wire_forest::LentFault;
use std::alloc::Global;

// A fault of a node at its position, on a side. Its text is copied.
fn raise(alloc: Global, fault: &LentFault<'_>, remote: bool) -> Result<Boxed<Raised>, Memory>
    ensures { let f = fault_seen fault.now in IfOk result (λ r. r ≡ record { fault = f.fault; at = f.at; remote = remote }) }
{
    let text = Seq::from_slice(alloc, fault.text)?;
    let code = fault.code;
    Boxed::new(
        alloc,
        Raised {
            fault: Fault { code, text },
            at: fault.at,
            remote,
        },
    )
}

/// The fault of a node, which is remote: `far_fault`.
pub fn far_fault(alloc: Global, fault: &LentFault<'_>) -> Result<Boxed<Raised>, Memory>
    ensures { IfOk result (λ r. r ≡ meant.far_fault (fault_seen fault.now)) }
{
    raise(alloc, fault, true)
}

/// The fault of a value that both sides evaluate: `own_fault`.
pub fn own_fault(alloc: Global, fault: &LentFault<'_>) -> Result<Boxed<Raised>, Memory>
    ensures { IfOk result (λ r. r ≡ meant.own_fault (fault_seen fault.now)) }
{
    raise(alloc, fault, fault.code == fault_codes::FUEL_USED)
}

// A fault without a text at a position, of the own side.
fn own(alloc: Global, code: u8, at: u32) -> Raised
    ensures { result ≡ causes.raised (causes.plain_fault code) at }
{
    Raised {
        fault: Fault {
            code,
            text: Seq::new(alloc),
        },
        at,
        remote: false,
    }
}

/// The fault Kind at a position, of the own side.
pub fn refuse(alloc: Global, at: u32) -> Raised
    ensures { result ≡ causes.raised causes.kind at }
{
    own(alloc, fault_codes::KIND, at)
}

/// The fault InputTooLarge at a position, of the own side.
pub fn too_large(alloc: Global, at: u32) -> Raised
    ensures { result ≡ causes.raised causes.input_too_large at }
{
    own(alloc, fault_codes::INPUT_TOO_LARGE, at)
}

/// The fault FuelUsed at a position, of the own side.
pub fn fuel_used(alloc: Global, at: u32) -> Raised
    ensures { result ≡ causes.raised causes.fuel_used at }
{
    own(alloc, fault_codes::FUEL_USED, at)
}
