// Texts as they stand in a picture.

ghost use Rattle.std.specs.Prelude.{◌≡◌, ◌++◌, OnOk};
ghost use Rattle.rb_picture.specs.Escapes.{escaped, all_escaped};

use rb_trees::{Memory, Word};

/// Adds a byte of a text.
fn add_byte(byte: u8, into: &mut Word) -> Result<(), Memory>
    ensures { OnOk result (into.new ≡ into.old ++ escaped byte) }
{
    match byte {
        b'&' => into.extend_from_slice(b"&amp;"),
        b'<' => into.extend_from_slice(b"&lt;"),
        b'>' => into.extend_from_slice(b"&gt;"),
        b'\t' => into.push(b' '),
        other if other < 32 => into.push(b'?'),
        127 => into.push(b'?'),
        other => into.push(other),
    }
}

#[tactic(auto, using(crate::proofs::Pieces::pieces))]
/// Adds a text, of which no character counts as SVG. A control character is shown as `?`.
pub fn add_escaped(text: &[u8], into: &mut Word) -> Result<(), Memory>
    ensures { OnOk result (into.new ≡ into.old ++ all_escaped text.now) }
{
    for byte in text {
        add_byte(*byte, into)?;
    }
    Ok(())
}
