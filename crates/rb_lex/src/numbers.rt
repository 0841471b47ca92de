// Numbers: their values.

ghost use Rattle.std.specs.Prelude.{◌≡◌, ◌≤◌, ◌<◌, ◌+◌, ◌^◌, length, min};
ghost use Rattle.rb_meaning_bytes.specs.tokens.Values.{number_value, int_of};

/// One more than the value of any number: greater values count as this.
const TOO_LARGE: u64 = 9_223_372_036_854_775_809;

/// The value of the digits, or `TOO_LARGE` where it is more.
#[tactic(auto, using(crate::proofs::Runs::value_steps))]
pub fn capped_value(digits: &[u8]) -> u64
    ensures { result ≡ min (number_value digits.now) TOO_LARGE }
{
    let mut value = 0u64;
    for b in digits {
        value = value
            .saturating_mul(10)
            .saturating_add(u64::from(b.saturating_sub(b'0')))
            .min(TOO_LARGE);
    }
    value
}

/// The Int that a number stands for, by `number_value` and `int_of`: 9223372036854775808 is the least Int.
pub fn number_value(digits: &[u8]) -> i64
    requires { number_value digits.now ≤ 9223372036854775808 }
    ensures { result ≡ int_of (number_value digits.now) }
{
    let value = capped_value(digits);
    if value == 9_223_372_036_854_775_808 {
        i64::MIN
    } else {
        value as i64
    }
}
