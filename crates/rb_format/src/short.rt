// Texts that aren't too long.

ghost use Rattle.std.specs.Prelude.{◌≡◌, ◌≤◌, length, IfOk, IfErr};
ghost use Rattle.rb_meaning_bytes.specs.tokens.Texts.{longest_text};
ghost use Rattle.rb_format.specs.Prints.{IsTooMuch};

use crate::stops::FormatStop;
use rb_trees::Word;

/// The greatest number of bytes of a text that is read.
const LONGEST_TEXT: usize = 1_048_576;

/// The same text, if it isn't too long to be read.
pub fn short_text(text: Word) -> Result<Word, FormatStop>
    ensures same { IfOk result (λ kept. kept ≡ text) }
    ensures short { IfOk result (λ kept. length kept ≤ longest_text) }
    ensures long { IfErr result (IsTooMuch text) }
{
    if text.len() > LONGEST_TEXT {
        Err(FormatStop::TooLong)
    } else {
        Ok(text)
    }
}
