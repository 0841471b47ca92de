// The keywords and the signs.

ghost use Rattle.std.specs.Prelude.{◌≡◌, ◌<◌, map, length, IfSome};
ghost use Rattle.rb_meaning_bytes.specs.tokens.Tables.{keywords, signs, number_in};

static KEYWORDS: [&str; 32] = [
    "interface",
    "class",
    "fun",
    "remote",
    "main",
    "val",
    "var",
    "if",
    "else",
    "for",
    "in",
    "while",
    "try",
    "catch",
    "throw",
    "return",
    "batch",
    "print",
    "len",
    "str",
    "new",
    "this",
    "true",
    "false",
    "List",
    "Rows",
    "Int",
    "Bool",
    "Text",
    "Unit",
    "object",
    "root",
];

static SIGNS: [&str; 26] = [
    "==", "!=", "<=", ">=", "&&", "||", "<", ">", "=", "+", "-", "*", "/", "%", "!", ".", ",", ";",
    ":", "(", ")", "{", "}", "[", "]", "#",
];

/// The number of the word in the table, if it stands there.
fn number_in(table: &[&str], word: &[u8]) -> Option<usize>
    ensures value { result ≡ number_in (map (λ s. s.now) table.now) word.now }
    ensures within { IfSome result (λ number. number < length table.now) }
{
    table.iter().position(|other| other.as_bytes() == word)
}

/// The number of a keyword.
pub fn keyword_number(word: &[u8]) -> Option<usize>
    ensures value { result ≡ number_in keywords word.now }
    ensures small { IfSome result (λ number. number < 256) }
{
    number_in(&KEYWORDS, word)
}

/// The number of a sign.
pub fn sign_number(slice: &[u8]) -> Option<usize>
    ensures value { result ≡ number_in signs slice.now }
    ensures small { IfSome result (λ number. number < 256) }
{
    number_in(&SIGNS, slice)
}
