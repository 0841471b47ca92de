// Two slashes in a row, without which there is no comment.

ghost use Rattle.std.specs.Prelude.{◌↔◌, IsTrue};
ghost use Rattle.rb_format.specs.Formats.{HasSlashes};

use memchr::memmem;

/// Whether two slashes in a row stand somewhere in a text.
pub fn has_slashes(text: &[u8]) -> bool
    ensures { IsTrue result ↔ HasSlashes text.now }
{
    memmem::find(text, b"//").is_some()
}
