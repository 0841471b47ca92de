// Bytes, shown as what they are.

ghost use Rattle.std.specs.Prelude.{◌≡◌, length, IfOk, OnOk};
ghost use Rattle.rb_dump.specs.Dumps.{IsFormOf, TellsAs};
ghost use Rattle.rb_dump.specs.Pieces.{Tiles};

use crate::dumps::{Dump, Form};
use crate::frames::show_frames;
use crate::journals::show_journal;
use crate::messages::{message_of, show_payload};
use crate::verdicts::Verdict;
use crate::walk::Walk;
use rb_trees::Memory;
use std::alloc::Global;

/// What bytes are: those that begin as a journal are one, those that begin as a frame are frames, and others a payload.
fn form_of(alloc: Global, bytes: &[u8]) -> Result<Form, Memory>
    ensures { IfOk result (IsFormOf bytes.now) }
{
    match bytes {
        [b'R', b'B', b'J', ..] => Ok(Form::Journal),
        [b'R', b'B', ..] => Ok(Form::Frames),
        _ => Ok(Form::Payload(message_of(alloc, bytes)?)),
    }
}

/// Shows all bytes of a form, and answers what is told of them.
fn show(alloc: Global, walk: &mut Walk<'_>, form: Form) -> Result<Verdict, Memory>
    requires { walk.old.at ≡ 0 }
    ensures bytes { walk.new.bytes ≡ walk.old.bytes }
    ensures at { OnOk result (walk.new.at ≡ length walk.old.bytes) }
    ensures verdict { IfOk result (TellsAs form walk.old.bytes) }
{
    match form {
        Form::Payload(message) => {
            let end = walk.len();
            show_payload(alloc, walk, message, end, 0)
        }
        Form::Frames => show_frames(alloc, walk),
        Form::Journal => show_journal(alloc, walk),
    }
}

/// Shows bytes piece by piece, down to where they break, and tells what the decoders say of them.
///
/// Bytes that begin with `52 42 4a` are a journal, others that begin with `52 42` are frames, and others a payload. A payload is
/// shown as a script where it spells one, else as a forest or a refusal where it spells that. Where it spells none, it is shown
/// as a forest if more of its fields can be read as such, and else as a script. Bytes that can't be read are a piece of their
/// own.
pub fn dump(alloc: Global, bytes: &[u8]) -> Result<Dump, Memory>
    // The pieces have all bytes, each once and in order.
    ensures pieces { IfOk result (λ dump. Tiles 0 dump.pieces (length bytes.now)) }
    // A payload is shown as a message that it spells.
    ensures form { IfOk result (λ dump. IsFormOf bytes.now dump.form) }
    // The verdict is that of the decoders.
    ensures verdict { IfOk result (λ dump. TellsAs dump.form bytes.now dump.verdict) }
{
    let form = form_of(alloc, bytes)?;
    let mut walk = Walk::new(alloc, bytes);
    let verdict = show(alloc, &mut walk, form)?;
    Ok(Dump {
        form,
        pieces: walk.into_pieces(),
        verdict,
    })
}
