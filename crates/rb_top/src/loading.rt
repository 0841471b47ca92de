// Texts from their files.

ghost use Rattle.rb_top.specs.Loads.{LoadsText};
ghost use Rattle.rb_top.specs.Scene.{directory};

use bytes::BytesMut;
use rb_base::{Files, FilesStop};
use std::alloc::Global;

/// The greatest number of bytes of a text.
const LONGEST_TEXT: usize = 1_048_576;

/// Why no text was read from a file: it can't be read, it has more bytes than a text may have, or no
/// memory was left.
#[derive(Debug, Drop)]
pub enum TextStop {
    FileFault,
    TooLong,
    Memory,
}

/// The text in a file.
pub fn load_text<F: Files>(alloc: Global, name: &str, files: &mut F) -> Result<BytesMut, TextStop>
    ensures { LoadsText (λ text. text.items) name.now result (directory F.Files files.old) (directory F.Files files.new) }
{
    let mut text = BytesMut::new(alloc);
    match files.read(name, LONGEST_TEXT, &mut text) {
        Err(FilesStop::Failed) => Err(TextStop::FileFault),
        Err(FilesStop::Memory) => Err(TextStop::Memory),
        Ok(()) => {
            if text.len() > LONGEST_TEXT {
                Err(TextStop::TooLong)
            } else {
                Ok(text)
            }
        }
    }
}
