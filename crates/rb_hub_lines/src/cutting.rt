// Texts that are cut at a byte.

ghost use Rattle.rb_hub_lines.specs.Cuts.{CutsAt};

use memchr::memchr;

/// What stands before and behind the first byte of this value, if there is one.
pub fn cut(byte: u8, text: &[u8]) -> Option<(&[u8], &[u8])>
    ensures { CutsAt byte text.now result }
{
    match memchr(byte, text) {
        Some(at) => Some((&text[..at], &text[at + 1..])),
        None => None,
    }
}
