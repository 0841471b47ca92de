// Numbers in groups of seven bits, the lowest first, read at the front of the bytes.

ghost use Rattle.std.specs.Prelude.{◌≡◌, ◌<◌, ◌≤◌, ◌^◌, IfOk, None};
ghost use Rattle.rb_meaning_bytes.specs.formats.Fields.{Short, Zig, Brief};
ghost use Rattle.rb_meaning_bytes.specs.formats.Pools.{any_number};
ghost use Rattle.rb_meaning_bytes.specs.formats.Reading.{look};
ghost use Rattle.rb_meaning_bytes.specs.formats.Shorts.{read_groups, limit, unfolded};
ghost use Rattle.rb_trees.specs.Outcome.{Gives};
ghost use Rattle.rb_wire_fields.specs.Endings.{may_end};
ghost use Rattle.rb_wire_fields.specs.Stops.{told, is_cut};

use crate::fields::{cut, refused};
use crate::stop::{BAD_TEXT, NOT_CANONICAL, Violation};

/// Why no number in groups stands at the front of the bytes.
#[derive(Clone, Copy)]
pub(crate) enum NoGroups {
    /// Bytes lack.
    Cut,
    /// A group is needless, or the number is beyond its bits.
    Wrong,
}

/// Whether a group below 128 may end a number: `may_end`.
#[inline(always)]
fn may_end(last: u8, left: u32, unit: u64, group: u8) -> bool
    ensures { result ≡ may_end last left unit group }
{
    let fits = 0 < left || group < last;
    fits && (unit == 1 || 0 < group)
}

/// A number in at most so many groups and a last one, which is below `last` where it is the last that may be.
#[tactic(auto, using(crate::proofs::Grouping::reading))]
#[inline(always)]
fn groups(last: u8, more: u32, bytes: &[u8]) -> Result<(u64, &[u8]), NoGroups>
    requires some { 1 < last }
    requires last { last ≤ 128 }
    requires bits { limit last more ≤ 2 ^ 64 }
    ensures gives { Gives (λ x. (x.0, x.1.now)) is_cut result (read_groups last more bytes.now) }
    ensures below { IfOk result (λ x. x.0 < limit last more) }
{
    // the number so far, what the next group counts, and how many groups may follow it
    let mut sum: u64 = 0;
    let mut unit: u64 = 1;
    let mut left = more;
    let mut rest = bytes;
    'groups: loop {
        let [group, tail @ ..] = rest else {
            return Err(NoGroups::Cut);
        };
        if *group < 128 {
            if !may_end(last, left, unit, *group) {
                return Err(NoGroups::Wrong);
            }
            return Ok((u64::from(*group) * unit + sum, tail));
        }
        if left == 0 {
            return Err(NoGroups::Wrong);
        }
        sum += u64::from(*group - 128) * unit;
        unit *= 128;
        left -= 1;
        rest = tail;
    }
}

/// The same, where one group is read at once.
#[tactic(auto, using(crate::proofs::Grouping::reading))]
#[inline(always)]
fn number(last: u8, more: u32, bytes: &[u8]) -> Result<(u64, &[u8]), NoGroups>
    requires some { 1 < last }
    requires last { last ≤ 128 }
    requires more { 0 < more }
    requires bits { limit last more ≤ 2 ^ 64 }
    ensures gives { Gives (λ x. (x.0, x.1.now)) is_cut result (read_groups last more bytes.now) }
    ensures below { IfOk result (λ x. x.0 < limit last more) }
{
    match bytes {
        [group, rest @ ..] if *group < 128 => Ok((u64::from(*group), rest)),
        _ => groups(last, more, bytes),
    }
}

/// A number of 32 bits in groups.
#[tactic(auto, unfolding(rb_meaning_bytes::specs::formats::Reading::look))]
#[inline(always)]
pub fn short(bytes: &[u8]) -> Result<(u32, &[u8]), Violation>
    ensures { Gives (λ x. (x.0, x.1.now)) told result (look (Short any_number) bytes.now) }
{
    match number(16, 4, bytes) {
        Ok((n, rest)) => Ok((n as u32, rest)),
        Err(NoGroups::Cut) => Err(cut()),
        Err(NoGroups::Wrong) => Err(refused(NOT_CANONICAL, bytes)),
    }
}

/// The signed number that a number without a sign stands for.
fn unfold(number: u64) -> i64
    ensures { result ≡ unfolded number }
{
    let half = (number / 2) as i64;
    if number % 2 == 0 { half } else { -1 - half }
}

/// A signed number of 64 bits in groups.
#[tactic(auto, unfolding(rb_meaning_bytes::specs::formats::Reading::look))]
#[inline(always)]
pub fn zig(bytes: &[u8]) -> Result<(i64, &[u8]), Violation>
    ensures { Gives (λ x. (x.0, x.1.now)) told result (look Zig bytes.now) }
{
    match number(2, 9, bytes) {
        Ok((n, rest)) => Ok((unfold(n), rest)),
        Err(NoGroups::Cut) => Err(cut()),
        Err(NoGroups::Wrong) => Err(refused(NOT_CANONICAL, bytes)),
    }
}

/// Bytes behind their length in groups, which is at most so much. They stay where they stand.
#[tactic(auto, unfolding(rb_meaning_bytes::specs::formats::Reading::look))]
pub fn brief(most: usize, bytes: &[u8]) -> Result<(&[u8], &[u8]), Violation>
    ensures { Gives (λ x. (x.0.now, x.1.now)) told result (look (Brief most (λ _. None)) bytes.now) }
{
    let (count, rest) = match number(16, 4, bytes) {
        Ok(found) => found,
        Err(NoGroups::Cut) => return Err(cut()),
        Err(NoGroups::Wrong) => return Err(refused(NOT_CANONICAL, bytes)),
    };
    let count = count as usize;
    if count > most {
        return Err(refused(BAD_TEXT, bytes));
    }
    if rest.len() < count {
        return Err(cut());
    }
    Ok(rest.split_at(count))
}
