// Refusals as texts.

use crate::told::add_number;
use rb_trees::{Memory, Refusal, Seq, Word};
use std::alloc::Global;
use std::ops::Range;

/// Adds the positions that a refusal tells, in order.
fn add_positions(refusal: &Refusal, into: &mut Seq<u32>) -> Result<(), Memory> {
    match refusal {
        Refusal::Flow(chain) => into.extend_from_slice(chain.as_slice()),
        Refusal::UnderLocalCondition(condition, operation) => {
            into.extend_from_slice(&[*condition, *operation])
        }
        Refusal::NotConstant(at) | Refusal::Escapes(at) => into.push(*at),
        Refusal::BatchInside(at) | Refusal::InTry(at) => into.push(*at),
        Refusal::RemoteVar(at) => into.push(*at),
        Refusal::TooManyInputs(_, _) | Refusal::ScriptTooLarge(_, _) => Ok(()),
    }
}

/// The number of a refusal. Admission has neither of the last two.
fn number(refusal: &Refusal) -> u32 {
    match refusal {
        Refusal::Flow(_) => 1,
        Refusal::NotConstant(_) => 2,
        Refusal::UnderLocalCondition(_, _) => 3,
        Refusal::Escapes(_) => 4,
        Refusal::BatchInside(_) => 5,
        Refusal::InTry(_) => 6,
        Refusal::RemoteVar(_) => 7,
        Refusal::TooManyInputs(_, _) => 8,
        Refusal::ScriptTooLarge(_, _) => 9,
    }
}

/// The letters that stand for a refusal's positions, in order.
const LETTERS: &[u8] = b"abcdefghijklmnopqrstuvwxyz";

/// The letter of the last of these positions that is a place, or a space where none is.
fn letter_at(positions: &[u32], place: usize) -> u8 {
    let mut letter = b' ';
    for k in 0..positions.len() {
        if positions[k] as usize == place {
            letter = LETTERS.get(k).copied().unwrap_or(b'?');
        }
    }
    letter
}

/// Adds the letters of the places that are shown.
fn add_letters(positions: &[u32], shown: Range<usize>, into: &mut Word) -> Result<(), Memory> {
    for place in shown {
        into.push(letter_at(positions, place))?;
    }
    Ok(())
}

/// Adds the letters of a refusal's positions under the text that is shown, and behind them its number.
pub fn add_drawn(
    alloc: Global,
    refusal: &Refusal,
    shown: Range<usize>,
    into: &mut Word,
) -> Result<(), Memory> {
    let mut positions = Seq::new(alloc);
    add_positions(refusal, &mut positions)?;
    add_letters(positions.as_slice(), shown, into)?;
    add_number(alloc, "", number(refusal), into)
}

/// Adds the number of a refusal, and how many positions a chain has, or 1.
pub fn add_chain(alloc: Global, refusal: &Refusal, into: &mut Word) -> Result<(), Memory> {
    let count = match refusal {
        Refusal::Flow(chain) => chain.len(),
        _ => 1,
    };
    let text = format!(in alloc; "{} {count}", number(refusal))?;
    into.extend_from_slice(text.as_bytes())
}
