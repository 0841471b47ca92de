// What a journal writes.

ghost use Rattle.std.specs.Prelude.{◌≡◌, ◌<◌, ◌^◌, length, IfOk};
ghost use Rattle.rb_journal.specs.Form.{text_of};

use rb_trees::{Memory, Seq, Word};
use std::alloc::Global;

/// The bytes that an append writes behind its gate.
pub fn text_of(alloc: Global, payload: &[u8]) -> Result<Word, Memory>
    requires { length payload.now < 2 ^ 32 }
    ensures { IfOk result (λ text. text ≡ text_of payload.now) }
{
    let mut text = Seq::new(alloc);
    text.extend_from_slice(&(payload.len() as u32).to_be_bytes())?;
    text.extend_from_slice(payload)?;
    text.extend_from_slice(&[0])?;
    Ok(text)
}
