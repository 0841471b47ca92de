// The version of a message, what stands at the front of an entry, and how a node ends.

ghost use Rattle.std.specs.Prelude.{◌≡◌, option_map};
ghost use Rattle.rb_meaning_bytes.specs.formats.Reading.{look, read};
ghost use Rattle.rb_meaning_bytes.specs.formats.Fields.{Tag};
ghost use Rattle.rb_meaning_bytes.specs.formats.Forests as format;
ghost use Rattle.rb_trees.specs.Outcome.{Gives};
ghost use Rattle.rb_wire_fields.specs.Stops.{told};
ghost use Rattle.rb_wire_forest.specs.Versions.{version_at};
ghost use Rattle.rb_wire_forest.specs.Fronts as heads;
ghost use Rattle.rb_wire_forest.specs.Fronts.{head, seen, end_seen, EndsAt};

use rb_trees::Version;
use rb_wire_fields::fields::{bad_tag, byte, natural, number, truth};
use rb_wire_fields::stop::Violation;
use rb_wire_fields::texts::{Item, primitive, words};

/// The front of an entry: a value, which is all of it; a branch, with the number of entries of its node; or a Rows, with its
/// number of nodes.
#[derive(Clone, Copy)]
pub enum Head<'a> {
    Value(Item<'a>),
    Branch(bool, u32),
    Rows(u32),
}

/// The fault of a node, whose text stands in the payload.
#[derive(Clone, Copy)]
pub struct LentFault<'a> {
    pub step: u32,
    pub at: u32,
    pub code: u8,
    pub text: &'a [u8],
}

/// The greatest code of a fault.
const GREATEST_CODE: u8 = 12;

/// The code of the one fault that keeps a text.
const THROWN: u8 = 8;

/// The version that a forest or a refusal begins with, and the bytes after it.
#[tactic(auto, unfolding(crate::specs::Versions::version_at))]
pub fn first_version(bytes: &[u8]) -> Result<(Version, &[u8]), Violation>
    ensures { Gives (λ x. (x.0, x.1.now)) told result (version_at bytes.now) }
{
    let (tag, rest) = byte(bytes)?;
    match tag {
        0x01 => Ok((Version::One, rest)),
        0x02 => Ok((Version::Two, rest)),
        _ => Err(bad_tag(rest)),
    }
}

#[inline(always)]
fn value_head(version: Version, rest: &[u8]) -> Option<(Head<'_>, &[u8])>
    ensures { option_map seen result ≡ heads.value_at version rest.now }
{
    match primitive(version, rest) {
        Ok((item, rest)) => Some((Head::Value(item), rest)),
        Err(_) => None,
    }
}

#[inline(always)]
fn branch_head(rest: &[u8]) -> Option<(Head<'_>, &[u8])>
    ensures { option_map seen result ≡ heads.branch_at rest.now }
{
    let Ok((taken, rest)) = truth(rest) else {
        return None;
    };
    match number(rest) {
        Ok((count, rest)) => Some((Head::Branch(taken, count), rest)),
        Err(_) => None,
    }
}

#[inline(always)]
fn rows_head(rest: &[u8]) -> Option<(Head<'_>, &[u8])>
    ensures { option_map seen result ≡ heads.rows_at rest.now }
{
    match number(rest) {
        Ok((count, rest)) => Some((Head::Rows(count), rest)),
        Err(_) => None,
    }
}

/// The front of the entry that stands first, and the bytes after it; None where there is none.
#[tactic(auto, unfolding(crate::specs::Fronts::head))]
#[inline(always)]
pub fn first_head(version: Version, bytes: &[u8]) -> Option<(Head<'_>, &[u8])>
    ensures { option_map seen result ≡ head version bytes.now }
{
    let Ok((tag, rest)) = byte(bytes) else {
        return None;
    };
    match tag {
        0x31 => value_head(version, rest),
        0x32 => branch_head(rest),
        0x33 => rows_head(rest),
        _ => None,
    }
}

/// A fault's code.
#[tactic(auto, using(crate::proofs::Equations::tags))]
fn code(bytes: &[u8]) -> Result<(u8, &[u8]), Violation>
    ensures { Gives (λ x. (x.0, x.1.now)) told result (look (Tag format.is_fault_code) bytes.now) }
{
    let (code, rest) = byte(bytes)?;
    if code < 1 || code > GREATEST_CODE {
        return Err(bad_tag(rest));
    }
    Ok((code, rest))
}

/// The text of a fault with this code.
#[tactic(auto, unfolding(rb_meaning_bytes::specs::formats::Reading::read))]
fn fault_text(version: Version, code: u8, bytes: &[u8]) -> Result<(&[u8], &[u8]), Violation>
    ensures { Gives (λ x. (x.0.now, x.1.now)) told result (read (format.fault_text version code) bytes.now) }
{
    if code != THROWN {
        return Ok((&[], bytes));
    }
    let (text, rest) = words(version, bytes)?;
    Ok((text, rest))
}

/// The fault that a node ends with.
#[tactic(auto, using(rb_meaning_bytes::proofs::formats::Exact::bound), unfolding(rb_meaning_bytes::specs::formats::Reading::read))]
#[inline(never)]
fn fault(version: Version, bytes: &[u8]) -> Result<(Option<LentFault<'_>>, &[u8]), Violation>
    ensures { Gives (λ x. (end_seen x.0, x.1.now)) told result (read (format.fault version) bytes.now) }
{
    let (step, rest) = natural(version, bytes)?;
    let (at, rest) = natural(version, rest)?;
    let (code, rest) = code(rest)?;
    let (text, rest) = fault_text(version, code, rest)?;
    Ok((
        Some(LentFault {
            step,
            at,
            code,
            text,
        }),
        rest,
    ))
}

/// How a node ends.
#[tactic(auto, using(crate::proofs::Equations::end_read), unfolding(rb_meaning_bytes::specs::formats::Reading::read))]
#[inline(always)]
pub fn end(version: Version, bytes: &[u8]) -> Result<(Option<LentFault<'_>>, &[u8]), Violation>
    ensures { Gives (λ x. (end_seen x.0, x.1.now)) told result (read (format.end version) bytes.now) }
{
    let (tag, rest) = byte(bytes)?;
    match tag {
        0x00 => Ok((None, rest)),
        0x01 => fault(version, rest),
        _ => Err(bad_tag(rest)),
    }
}

/// The step of the fault that a node ends with, whose text isn't looked at.
#[inline]
pub fn end_step(version: Version, bytes: &[u8]) -> Option<u32>
    ensures { EndsAt version bytes.now result }
{
    let Ok((tag, rest)) = byte(bytes) else {
        return None;
    };
    if tag != 0x01 {
        return None;
    }
    match natural(version, rest) {
        Ok((step, _)) => Some(step),
        Err(_) => None,
    }
}
