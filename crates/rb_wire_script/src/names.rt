// Names: a length, and so many bytes of a name.

ghost use Rattle.std.specs.Prelude.{◌≡◌};
ghost use Rattle.rb_trees.specs.Spelling.{is_letter, is_word_byte};
ghost use Rattle.rb_meaning_bytes.specs.formats.Fields.{Name, is_name, are_word_bytes};
ghost use Rattle.rb_meaning_bytes.specs.formats.Reading.{look};
ghost use Rattle.rb_trees.specs.Outcome.{Gives};
ghost use Rattle.rb_wire_fields.specs.Stops.{told};

use rb_wire_fields::fields::{cut, refused};
use rb_wire_fields::stop::{BAD_TEXT, Violation};
use rb_wire_fields::texts::{behind, length_of};

/// Whether the byte may begin a name.
#[tactic(auto, using(std::proofs::lemmas::Bool::Decides::nat_tests), unfolding(rb_trees::specs::Spelling::is_letter))]
fn begins_name(b: u8) -> bool
    ensures { result ≡ is_letter b }
{
    b.is_ascii_alphabetic() || b == b'_'
}

/// Whether the byte may stand in a name.
#[tactic(auto, using(std::proofs::lemmas::Bool::Decides::nat_tests), unfolding(rb_trees::specs::Spelling::is_letter, rb_trees::specs::Spelling::is_digit, rb_trees::specs::Spelling::is_word_byte))]
fn goes_on_name(b: u8) -> bool
    ensures { result ≡ is_word_byte b }
{
    b.is_ascii_alphanumeric() || b == b'_'
}

/// Whether all the bytes may stand in a name.
fn all_go_on(bytes: &[u8]) -> bool
    ensures { result ≡ are_word_bytes bytes.now }
{
    for b in bytes {
        if !goes_on_name(*b) {
            return false;
        }
    }
    true
}

/// Whether the bytes are a name.
pub(crate) fn is_name(bytes: &[u8]) -> bool
    ensures { result ≡ is_name bytes.now }
{
    match bytes {
        [first, rest @ ..] => begins_name(*first) && all_go_on(rest),
        [] => false,
    }
}

/// A name: its length, and so many bytes of a name. It stays where it stands.
#[tactic(auto, unfolding(rb_meaning_bytes::specs::formats::Reading::look))]
pub(crate) fn lent_name(bytes: &[u8]) -> Result<(&[u8], &[u8]), Violation>
    ensures { Gives (λ x. (x.0.now, x.1.now)) told result (look Name bytes.now) }
{
    let count = length_of(bytes) as usize;
    if bytes.len() < 4 + count {
        return Err(cut());
    }
    let (name, rest) = behind(bytes, count);
    if !is_name(name) {
        return Err(refused(BAD_TEXT, bytes));
    }
    Ok((name, rest))
}
