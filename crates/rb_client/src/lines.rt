// Lines as they are written.

ghost use Rattle.std.specs.Prelude.{◌≡◌, IfOk};
ghost use Rattle.rb_meaning.specs.Shown.{line};

use std::alloc::{AllocError, Global};

/// A line with its line feed.
pub fn whole_line(alloc: Global, bytes: &[u8]) -> Result<Vec<u8>, AllocError>
    ensures { IfOk result (λ text. text.items ≡ line bytes.now) }
{
    let mut text = Vec::from_slice(alloc, bytes)?;
    text.extend_from_slice(b"\n")?;
    Ok(text)
}
