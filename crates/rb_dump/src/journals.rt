// A journal: its head, its gates, and the payloads of its records.

ghost use Rattle.std.specs.Prelude.{◌≡◌, ◌+◌, ◌<◌, ◌≤◌, ◌∷◌, ◌++◌, ℕ, List, length, drop, IfOk, IfSome, IfNone, OnOk};
ghost use Rattle.rb_dump.specs.Journals.{head, IsGate, TellsRecords, TellsJournal};
ghost use Rattle.rb_dump.specs.Leads.{Leads};

use crate::fields::Message;
use crate::messages::{show_payload, show_unread};
use crate::reader::filled;
use crate::verdicts::{LONGEST, Verdict, first_of};
use crate::walk::Walk;
use rb_trees::Memory;
use rb_wire_fields::texts::length_of;
use std::alloc::Global;

/// What stands at a gate.
#[derive(Clone, Copy)]
pub(crate) enum Gate {
    /// The gate is open, and the payload of the record behind it has so many bytes.
    Open(usize),
    /// The gate is closed.
    Closed,
    /// There is no gate, or no record behind an open one.
    Bad,
}

/// The gate behind the head of a journal, and the bytes behind that.
fn behind_head(bytes: &[u8]) -> Option<(u8, &[u8])>
    ensures found { IfSome result (λ x. bytes.now ≡ head ++ x.0 ∷ x.1.now) }
    ensures none { IfNone result ((gate : ℕ) (behind : List ℕ) → bytes.now ≡ head ++ gate ∷ behind → ⊥) }
{
    match bytes {
        [0x52, 0x42, 0x4a, 1, gate, behind @ ..] => Some((*gate, behind)),
        _ => None,
    }
}

/// What stands at a gate that is open, with these bytes behind it.
fn open_gate(behind: &[u8]) -> Gate
    ensures { IsGate (1 ∷ behind.now) result }
{
    let size = length_of(behind) as usize;
    if behind.len() < 4 || size > LONGEST || behind.len() < 4 + size {
        return Gate::Bad;
    }
    Gate::Open(size)
}

/// What stands at the gate at the front of bytes.
fn gate_of(bytes: &[u8]) -> Gate
    ensures { IsGate bytes.now result }
{
    match bytes {
        [] => Gate::Bad,
        [1, behind @ ..] => open_gate(behind),
        [_, ..] => Gate::Closed,
    }
}

/// Shows an open gate, and the length of the record behind it.
fn show_size(alloc: Global, walk: &mut Walk<'_>, size: usize) -> Result<(), Memory>
    requires { walk.old.at + 5 ≤ length walk.old.bytes }
    ensures bytes { walk.new.bytes ≡ walk.old.bytes }
    ensures at { OnOk result (walk.new.at ≡ walk.old.at + 5) }
{
    walk.add(1, 0, filled(alloc, b"open gate", b"", 0)?)?;
    walk.add(4, 1, filled(alloc, b"length: #", b"", size as u64)?)
}

/// Shows an open gate and the record behind it, and answers what is told of its payload.
fn show_record(alloc: Global, walk: &mut Walk<'_>, size: usize) -> Result<Verdict, Memory>
    requires gate { IsGate (drop walk.old.at walk.old.bytes) (Gate.Open size) }
    requires there { walk.old.at + 5 + size ≤ length walk.old.bytes }
    ensures bytes { walk.new.bytes ≡ walk.old.bytes }
    ensures at { OnOk result (walk.old.at < walk.new.at) }
    ensures leads { IfOk result (Leads TellsRecords walk.old walk.new) }
{
    show_size(alloc, walk, size)?;
    let end = walk.after(size);
    show_payload(alloc, walk, Message::Script, end, 1)
}

/// Shows a closed gate, and all that stands behind it.
fn show_closed(alloc: Global, walk: &mut Walk<'_>) -> Result<(), Memory>
    requires { walk.old.at < length walk.old.bytes }
    ensures bytes { walk.new.bytes ≡ walk.old.bytes }
    ensures at { OnOk result (walk.new.at ≡ length walk.old.bytes) }
{
    walk.add(1, 0, filled(alloc, b"closed gate", b"", 0)?)?;
    let end = walk.len();
    show_unread(alloc, walk, end, 1)
}

/// Shows gates and records, and answers what is told of them.
#[tactic(auto, using(crate::proofs::Recorded::so_far))]
fn show_records(alloc: Global, walk: &mut Walk<'_>) -> Result<Verdict, Memory>
    ensures bytes { walk.new.bytes ≡ walk.old.bytes }
    ensures at { OnOk result (walk.new.at ≡ length walk.old.bytes) }
    ensures verdict { IfOk result (TellsRecords walk.old.at (drop walk.old.at walk.old.bytes)) }
{
    let mut verdict = Verdict::Whole;
    'records: loop {
        match gate_of(walk.rest()) {
            Gate::Open(size) => {
                let found = show_record(alloc, walk, size)?;
                verdict = first_of(verdict, found);
            }
            Gate::Closed => {
                show_closed(alloc, walk)?;
                return Ok(verdict);
            }
            Gate::Bad => {
                let at = walk.at();
                let end = walk.len();
                show_unread(alloc, walk, end, 0)?;
                return Ok(first_of(verdict, Verdict::BadRecord { at }));
            }
        }
    }
}

/// Shows a journal, and answers what is told of it.
pub(crate) fn show_journal(alloc: Global, walk: &mut Walk<'_>) -> Result<Verdict, Memory>
    requires { walk.old.at ≡ 0 }
    ensures bytes { walk.new.bytes ≡ walk.old.bytes }
    ensures at { OnOk result (walk.new.at ≡ length walk.old.bytes) }
    ensures verdict { IfOk result (TellsJournal walk.old.bytes) }
{
    match behind_head(walk.rest()) {
        Some(_) => {
            walk.add(4, 0, filled(alloc, b"journal", b"", 0)?)?;
            show_records(alloc, walk)
        }
        None => {
            let end = walk.len();
            show_unread(alloc, walk, end, 0)?;
            Ok(Verdict::NoJournal)
        }
    }
}
