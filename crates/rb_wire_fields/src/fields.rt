// The fields of messages: each is read at the front of the bytes, and gives the bytes behind it. What has another spelling in
// each version is read by the version.

ghost use Rattle.std.specs.Prelude.{◌≡◌, ◌+◌, length, Some};
ghost use Rattle.rb_meaning_bytes.specs.formats.Fields.{Byte, Number, Wide, Truth};
ghost use Rattle.rb_meaning_bytes.specs.formats.Reading.{look, read, deep};
ghost use Rattle.rb_meaning_bytes.specs.formats.Values as format;
ghost use Rattle.rb_trees.specs.Outcome.{Gives};
ghost use Rattle.rb_wire_fields.specs.Stops.{told};

use crate::groups::{short, zig};
use crate::stop::{BAD_TAG, NOT_CANONICAL, TOO_DEEP, TRUNCATED, Violation};
use rb_trees::Version;

/// The violation where a field lacks bytes.
#[inline(always)]
pub fn cut() -> Violation
    ensures { result ≡ record { number = 1; left = 0 } }
{
    Violation {
        number: TRUNCATED as usize,
        left: 0,
    }
}

/// The violation at the first of the bytes.
#[inline(always)]
pub fn refused(number: u8, bytes: &[u8]) -> Violation
    ensures { result ≡ record { number = number; left = length bytes.now } }
{
    Violation {
        number: number as usize,
        left: bytes.len(),
    }
}

/// The violation at a tag that stands for nothing, with these bytes after it.
#[inline(always)]
pub fn bad_tag(rest: &[u8]) -> Violation
    ensures { result ≡ record { number = 2; left = length rest.now + 1 } }
{
    Violation {
        number: BAD_TAG as usize,
        left: rest.len() + 1,
    }
}

/// The violation where something would be within too much.
pub fn too_deep(bytes: &[u8]) -> Violation
    ensures { told result ≡ Some (deep bytes.now) }
{
    match bytes {
        [] => cut(),
        [_, ..] => refused(TOO_DEEP, bytes),
    }
}

/// A byte.
#[tactic(auto, unfolding(rb_meaning_bytes::specs::formats::Reading::look))]
#[inline(always)]
pub fn byte(bytes: &[u8]) -> Result<(u8, &[u8]), Violation>
    ensures { Gives (λ x. (x.0, x.1.now)) told result (look Byte bytes.now) }
{
    match bytes {
        [n, rest @ ..] => Ok((*n, rest)),
        [] => Err(cut()),
    }
}

/// A number of 32 bits.
#[tactic(auto, unfolding(rb_meaning_bytes::specs::formats::Reading::look))]
#[inline(always)]
pub fn number(bytes: &[u8]) -> Result<(u32, &[u8]), Violation>
    ensures { Gives (λ x. (x.0, x.1.now)) told result (look Number bytes.now) }
{
    if bytes.len() < 4 {
        return Err(cut());
    }
    let (front, rest) = bytes.split_at(4);
    let number = u32::from_be_bytes([front[0], front[1], front[2], front[3]]);
    Ok((number, rest))
}

/// A signed number of 64 bits.
#[tactic(auto, unfolding(rb_meaning_bytes::specs::formats::Reading::look))]
#[inline(always)]
pub fn wide(bytes: &[u8]) -> Result<(i64, &[u8]), Violation>
    ensures { Gives (λ x. (x.0, x.1.now)) told result (look Wide bytes.now) }
{
    if bytes.len() < 8 {
        return Err(cut());
    }
    let (front, rest) = bytes.split_at(8);
    let number = i64::from_be_bytes([
        front[0], front[1], front[2], front[3], front[4], front[5], front[6], front[7],
    ]);
    Ok((number, rest))
}

/// A truth value.
#[tactic(auto, unfolding(rb_meaning_bytes::specs::formats::Reading::look))]
#[inline(always)]
pub fn truth(bytes: &[u8]) -> Result<(bool, &[u8]), Violation>
    ensures { Gives (λ x. (x.0, x.1.now)) told result (look Truth bytes.now) }
{
    match bytes {
        [] => Err(cut()),
        [b, rest @ ..] => {
            if *b > 1 {
                return Err(refused(NOT_CANONICAL, bytes));
            }
            Ok((*b == 1, rest))
        }
    }
}

/// A number of 32 bits, as the version spells it.
#[tactic(auto, using(crate::proofs::Equations::leaves))]
#[inline(always)]
pub fn natural(version: Version, bytes: &[u8]) -> Result<(u32, &[u8]), Violation>
    ensures { Gives (λ x. (x.0, x.1.now)) told result (read (format.natural version) bytes.now) }
{
    match version {
        Version::One => number(bytes),
        Version::Two => short(bytes),
    }
}

/// A signed number of 64 bits, as the version spells it.
#[tactic(auto, using(crate::proofs::Equations::leaves))]
#[inline(always)]
pub fn integer(version: Version, bytes: &[u8]) -> Result<(i64, &[u8]), Violation>
    ensures { Gives (λ x. (x.0, x.1.now)) told result (read (format.integer version) bytes.now) }
{
    match version {
        Version::One => wide(bytes),
        Version::Two => zig(bytes),
    }
}
