// Numbers as words name them.

ghost use Rattle.std.specs.Prelude.{◌≡◌, ◌<◌, ◌^◌};
ghost use Rattle.std.specs.List.{list_all};
ghost use Rattle.rb_trees.specs.Spelling.{is_digit};
ghost use Rattle.rb_top.specs.Words.{number_within, count_of, fuel_of, trial_count_of, most_count, most_files, most_fuel};

use rb_lex::capped_value;

/// The most digits of a number of fuel or sessions.
const MOST_DIGITS: usize = 10;

/// The most digits of a number of files.
const MOST_FILE_DIGITS: usize = 5;

/// The most fuel that a run may be given.
const MOST_FUEL: u64 = 1_000_000_000;

/// The most sessions that a server may be asked to serve.
const MOST_COUNT: u64 = 1_000_000;

/// The most files that a trial may have.
const MOST_FILES: u64 = 10_000;

/// Whether all bytes are digits.
#[tactic(auto, using(std::proofs::lemmas::Bool::Decides::nat_tests), unfolding(rb_trees::specs::Spelling::is_digit))]
fn are_digits(bytes: &[u8]) -> bool
    ensures { result ≡ list_all is_digit bytes.now }
{
    for byte in bytes {
        if !(*byte).is_ascii_digit() {
            return false;
        }
    }
    true
}

/// The number that a word names: one digit to so many, of at least and at most so much.
#[tactic(auto, using(std::proofs::lemmas::Bool::Decides::nat_tests))]
fn number_within(word: &str, most_digits: usize, least: u64, most: u64) -> Option<u64>
    requires { most < 2 ^ 63 }
    ensures { result ≡ number_within most_digits least most word.now }
{
    let digits = word.as_bytes();
    if !are_digits(digits) || digits.is_empty() || digits.len() > most_digits {
        return None;
    }
    let number = capped_value(digits);
    if number < least || number > most {
        None
    } else {
        Some(number)
    }
}

/// The fuel that a word names: one to ten digits, of at most 1,000,000,000.
#[tactic(auto, unfolding(crate::specs::Words::most_fuel))]
pub fn fuel_of(word: &str) -> Option<u64>
    ensures { result ≡ fuel_of word.now }
{
    number_within(word, MOST_DIGITS, 0, MOST_FUEL)
}

/// The count of sessions that a word names: one to ten digits, of 1 to 1,000,000.
#[tactic(auto, unfolding(crate::specs::Words::most_count))]
pub fn count_of(word: &str) -> Option<u32>
    ensures { result ≡ count_of word.now }
{
    let count = number_within(word, MOST_DIGITS, 1, MOST_COUNT)?;
    Some(count as u32)
}

/// The count of files that a word names: one to five digits, of 1 to 10,000.
#[tactic(auto, unfolding(crate::specs::Words::most_files))]
pub fn trial_count_of(word: &str) -> Option<u64>
    ensures { result ≡ trial_count_of word.now }
{
    number_within(word, MOST_FILE_DIGITS, 1, MOST_FILES)
}
