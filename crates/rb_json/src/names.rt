// Names in JSON.

ghost use Rattle.std.specs.Prelude.{◌≡◌};
ghost use Rattle.rb_trees.specs.Spelling.{is_letter, is_word_byte};
ghost use Rattle.rb_meaning_bytes.specs.formats.Fields.{is_name, are_word_bytes};

/// Whether the byte may begin a name.
#[tactic(auto, using(std::proofs::lemmas::Bool::Decides::nat_tests), unfolding(rb_trees::specs::Spelling::is_letter))]
fn begins_name(b: u8) -> bool
    ensures { result ≡ is_letter b }
{
    b.is_ascii_alphabetic() || b == b'_'
}

/// Whether the byte may stand in a name.
#[tactic(auto, using(std::proofs::lemmas::Bool::Decides::nat_tests), unfolding(rb_trees::specs::Spelling::is_letter, rb_trees::specs::Spelling::is_digit, rb_trees::specs::Spelling::is_word_byte))]
fn goes_on_name(b: u8) -> bool
    ensures { result ≡ is_word_byte b }
{
    b.is_ascii_alphanumeric() || b == b'_'
}

/// Whether all the bytes may stand in a name.
fn all_go_on(bytes: &[u8]) -> bool
    ensures { result ≡ are_word_bytes bytes.now }
{
    for b in bytes {
        if !goes_on_name(*b) {
            return false;
        }
    }
    true
}

/// Whether the bytes are a name.
pub(crate) fn is_name(bytes: &[u8]) -> bool
    ensures { result ≡ is_name bytes.now }
{
    match bytes {
        [first, rest @ ..] => begins_name(*first) && all_go_on(rest),
        [] => false,
    }
}
