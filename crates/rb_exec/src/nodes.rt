// The parts of a script's node, put at the end of a buffer. After an error the buffer has kept its bytes. Values and ends
// are spelled otherwise in each version of the wire, so they are put by the version.

ghost use Rattle.std.specs.Prelude.{◌≡◌, ◌+◌, ◌≤◌, ◌++◌, [], ◌∷◌, length, IfOk, OnOk, OnErr};
ghost use Rattle.std.specs.Option.{option_copied};
ghost use Rattle.rb_meaning_bytes.specs.formats.Fields.{number, truth};
ghost use Rattle.rb_meaning_bytes.specs.formats.ScriptBytes.{value_bytes};
ghost use Rattle.rb_meaning_bytes.specs.formats.ForestBytes.{end_bytes, node_bytes};
ghost use Rattle.rb_wire_fields.specs.Buffers.{Keeps};
ghost use Rattle.rb_exec.specs.Blocks.{Ended, faulted_node, first_entries, one_value};
ghost use Rattle.rb_exec.specs.Ends.{UnlessMemory};
ghost use Rattle.rb_exec.specs.Holes.{filled};
ghost use Rattle.rb_exec.specs.Written.{AddsEntries, written};

use crate::ends::Stop;
use crate::holes::{add_one, fill, leave_hole};
use bytes::{BufMut, BytesMut};
use rb_trees::{Fault, Memory, NodeFault, Value, Version};
use rb_wire_fields::puts::{put_natural, put_number, put_truth, put_value, put_words};

/// The code of the one fault that keeps a text.
const THROWN: u8 = 8;

/// Appends the byte that tells what follows.
#[tactic(auto, using(rb_wire_fields::proofs::Kept::kept))]
pub fn put_tag(tag: u8, bytes: &mut BytesMut) -> Result<(), Memory>
    ensures ok { OnOk result (bytes.new.items ≡ bytes.old.items ++ tag ∷ []) }
    ensures err { OnErr result (Keeps bytes.old.items bytes.new.items) }
{
    bytes.put_u8(tag)?;
    Ok(())
}

// Appends the bytes of a value's entry.
#[tactic(auto, using(rb_wire_fields::proofs::Kept::kept))]
fn put_value_entry(version: Version, value: &Value, bytes: &mut BytesMut) -> Result<(), Memory>
    ensures ok { OnOk result (bytes.new.items ≡ bytes.old.items ++ 0x31 ∷ value_bytes version value.now) }
    ensures err { OnErr result (Keeps bytes.old.items bytes.new.items) }
{
    put_tag(0x31, bytes)?;
    put_value(version, value, bytes)?;
    Ok(())
}

/// Appends the entry of a value, which is primitive, and counts it.
pub fn put_entry(
    version: Version,
    value: &Value,
    count: &mut u32,
    bytes: &mut BytesMut,
) -> Result<(), Memory>
    ensures ok { let before = written version bytes.old.items count.old in
        OnOk result (AddsEntries (one_value value.now) before (written version bytes.new.items count.new)) }
    ensures err { OnErr result (Keeps bytes.old.items bytes.new.items) }
{
    put_value_entry(version, value, bytes)?;
    add_one(count);
    Ok(())
}

/// The same of the value that a node begins with, where there is one.
pub fn put_first(
    version: Version,
    first: Option<&Value>,
    count: &mut u32,
    bytes: &mut BytesMut,
) -> Result<(), Memory>
    ensures ok { let entries = first_entries (option_copied first.entry) in
        let before = written version bytes.old.items count.old in
        OnOk result (AddsEntries entries before (written version bytes.new.items count.new)) }
    ensures err { OnErr result (Keeps bytes.old.items bytes.new.items) }
{
    match first {
        Some(value) => {
            put_entry(version, value, count, bytes)?;
            Ok(())
        }
        None => Ok(()),
    }
}

/// Appends the front of a branch's entry, behind which its node stands.
#[tactic(auto, using(rb_wire_fields::proofs::Kept::kept))]
pub fn put_branch(taken: bool, bytes: &mut BytesMut) -> Result<(), Memory>
    ensures ok { OnOk result (bytes.new.items ≡ bytes.old.items ++ 0x32 ∷ truth taken) }
    ensures err { OnErr result (Keeps bytes.old.items bytes.new.items) }
{
    put_tag(0x32, bytes)?;
    put_truth(taken, bytes)?;
    Ok(())
}

/// Appends the front of the entry of turns, and leaves room for their number: its place.
#[tactic(auto, using(rb_wire_fields::proofs::Kept::kept))]
pub fn put_rows(bytes: &mut BytesMut) -> Result<usize, Memory>
    ensures at { IfOk result (λ at. at ≡ length (bytes.old.items ++ 0x33 ∷ [])) }
    ensures ok { OnOk result (bytes.new.items ≡ bytes.old.items ++ 0x33 ∷ [] ++ number 0) }
    ensures err { OnErr result (Keeps bytes.old.items bytes.new.items) }
{
    put_tag(0x33, bytes)?;
    let at = leave_hole(bytes)?;
    Ok(at)
}

// Appends the fault that a node ends with.
#[tactic(auto, using(rb_wire_fields::proofs::Kept::kept))]
fn put_fault(version: Version, fault: &NodeFault, bytes: &mut BytesMut) -> Result<(), Memory>
    ensures ok { OnOk result (bytes.new.items ≡ bytes.old.items ++ end_bytes version (Some fault.now)) }
    ensures err { OnErr result (Keeps bytes.old.items bytes.new.items) }
{
    bytes.put_u8(0x01)?;
    put_natural(version, fault.step, bytes)?;
    put_natural(version, fault.at, bytes)?;
    bytes.put_u8(fault.fault.code)?;
    if fault.fault.code == THROWN {
        put_words(version, fault.fault.text.as_slice(), bytes)?;
        Ok(())
    } else {
        Ok(())
    }
}

/// Ends a node by how its steps ended, and tells whether a fault stopped them: puts the number of its entries into the
/// room that was left for it, and appends its end.
#[inline(always)]
#[tactic(auto, using(rb_wire_fields::proofs::Kept::kept))]
pub fn end_node(
    version: Version,
    bytes: &mut BytesMut,
    at: usize,
    count: u32,
    end: Result<(), Stop>,
) -> Result<bool, Stop>
    requires { at + 4 ≤ length bytes.old.items }
    ensures ended { let before = filled at (number count) bytes.old.items in
        UnlessMemory result (λ stopped. Ended version end before stopped bytes.new.items) }
    ensures kept { OnErr result (Keeps (filled at (number count) bytes.old.items) bytes.new.items) }
{
    fill(bytes, at, count);
    match end {
        Ok(()) => {
            put_tag(0x00, bytes)?;
            Ok(false)
        }
        Err(Stop::Fault(fault)) => {
            put_fault(version, fault.get(), bytes)?;
            Ok(true)
        }
        Err(Stop::Within) => {
            put_tag(0x00, bytes)?;
            Ok(true)
        }
        Err(Stop::Memory) => Err(Stop::Memory),
    }
}

/// Appends the node that has a fault as its only content.
#[inline(never)]
#[tactic(auto, using(rb_wire_fields::proofs::Kept::kept))]
pub fn put_faulted(
    version: Version,
    step: u32,
    at: u32,
    fault: Fault,
    bytes: &mut BytesMut,
) -> Result<(), Memory>
    ensures ok { OnOk result (bytes.new.items ≡ bytes.old.items ++ node_bytes version (faulted_node step at fault)) }
    ensures err { OnErr result (Keeps bytes.old.items bytes.new.items) }
{
    put_number(0, bytes)?;
    put_fault(version, &NodeFault { step, at, fault }, bytes)?;
    Ok(())
}
