// Classes of bytes, and runs of them.

ghost use Rattle.std.specs.Prelude.{◌≡◌, ◌≤◌, ◌+◌, drop, length};
ghost use Rattle.std.specs.List.{prefix_len};
ghost use Rattle.rb_meaning_bytes.specs.tokens.Bytes.{is_letter, is_digit, is_word_byte, is_in_line, is_separator, is_escaped};
ghost use Rattle.rb_lex.specs.Classes.{class_of};

/// The classes of the bytes that a token, a separator or a comment may begin with.
#[derive(Clone, Copy)]
pub enum Class {
    Separator,
    Letter,
    Digit,
    Quote,
    Other,
}

/// The class of a byte.
#[tactic(auto, using(std::proofs::lemmas::Bool::Decides::nat_tests), unfolding(crate::specs::Classes::class_of, rb_meaning_bytes::specs::tokens::Bytes::is_separator, rb_meaning_bytes::specs::tokens::Bytes::is_letter, rb_meaning_bytes::specs::tokens::Bytes::is_digit))]
pub fn byte_class(b: u8) -> Class
    ensures { result ≡ class_of b }
{
    match b {
        b' ' | b'\t' | b'\r' | b'\n' => Class::Separator,
        b'A'..=b'Z' | b'a'..=b'z' | b'_' => Class::Letter,
        b'0'..=b'9' => Class::Digit,
        b'"' => Class::Quote,
        _ => Class::Other,
    }
}

/// Whether the byte goes on with a word.
#[tactic(auto, using(std::proofs::lemmas::Bool::Decides::nat_tests), unfolding(rb_meaning_bytes::specs::tokens::Bytes::is_letter, rb_meaning_bytes::specs::tokens::Bytes::is_digit, rb_meaning_bytes::specs::tokens::Bytes::is_word_byte))]
pub fn is_word_byte(b: u8) -> bool
    ensures { result ≡ is_word_byte b }
{
    b.is_ascii_alphanumeric() || b == b'_'
}

/// Whether the byte is a digit.
#[tactic(auto, using(std::proofs::lemmas::Bool::Decides::nat_tests), unfolding(rb_meaning_bytes::specs::tokens::Bytes::is_digit))]
pub fn is_digit(b: u8) -> bool
    ensures { result ≡ is_digit b }
{
    b.is_ascii_digit()
}

/// Whether the byte makes an escape behind a backslash.
#[tactic(auto, using(std::proofs::lemmas::Bool::Decides::nat_tests), unfolding(rb_meaning_bytes::specs::tokens::Bytes::is_escaped))]
pub fn is_escaped(b: u8) -> bool
    ensures { result ≡ is_escaped b }
{
    b == b'n' || b == b'"' || b == b'\\'
}

/// How many bytes at the front go on with a word.
#[tactic(auto, using(crate::proofs::Runs::run_steps))]
pub fn word_len(text: &[u8]) -> usize
    ensures value { result ≡ prefix_len is_word_byte text.now }
    ensures within { result ≤ length text.now }
{
    let mut n = 0;
    while n < text.len() && is_word_byte(text[n]) {
        n += 1;
    }
    n
}

/// How many bytes at the front are digits.
#[tactic(auto, using(crate::proofs::Runs::run_steps))]
pub fn digits_len(text: &[u8]) -> usize
    ensures value { result ≡ prefix_len is_digit text.now }
    ensures within { result ≤ length text.now }
{
    let mut n = 0;
    while n < text.len() && is_digit(text[n]) {
        n += 1;
    }
    n
}

/// How many bytes stand before the next line feed or the end.
#[tactic(auto, using(crate::proofs::Runs::run_steps), unfolding(rb_meaning_bytes::specs::tokens::Bytes::is_in_line))]
pub fn line_len(text: &[u8]) -> usize
    ensures value { result ≡ prefix_len is_in_line text.now }
    ensures within { result ≤ length text.now }
{
    let mut n = 0;
    while n < text.len() && text[n] != b'\n' {
        n += 1;
    }
    n
}

/// The text behind its first bytes.
pub fn after(text: &[u8], count: usize) -> &[u8]
    requires { count ≤ length text.now }
    ensures { result.now ≡ drop count text.now }
{
    &text[count..]
}
