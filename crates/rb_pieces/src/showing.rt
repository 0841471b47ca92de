// Bytes of a text as they are shown.

ghost use Rattle.std.specs.Prelude.{◌≡◌, IfOk};
ghost use Rattle.std.specs.String.{string_bytes};
ghost use Rattle.rb_pieces.specs.Characters as words;
ghost use Rattle.rb_pieces.specs.Characters.{shown_text};

use std::alloc::{AllocError, Global};

/// A character as it is shown: `shown_char`.
fn shown_char(c: char) -> char
    ensures { result ≡ words.shown_char c }
{
    match c {
        '\r' => ' ',
        '\0'..='\u{8}'
        | '\n'..='\u{1f}'
        | '\u{7f}'..='\u{9f}'
        | '\u{2028}'..='\u{202e}'
        | '\u{2066}'..='\u{2069}' => '\u{fffd}',
        other => other,
    }
}

/// Bytes of a text as they are shown: tabs and all that can be seen as they are, a carriage return as a space, and
/// controls and bytes that spell nothing as U+FFFD. The rule is `shown_text`.
pub fn shown(alloc: Global, bytes: &[u8]) -> Result<String, AllocError>
    ensures { IfOk result (λ text. string_bytes text ≡ shown_text bytes.now) }
{
    let text = String::from_utf8_lossy(alloc, bytes)?;
    text.chars().map(shown_char).collect(alloc)
}
