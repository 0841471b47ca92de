// Refusals as bytes, both ways.

ghost use Rattle.std.specs.Prelude.{◌≡◌, ◌++◌, ℕ, true, IfSome, OnOk, OnErr};
ghost use Rattle.rb_meaning_bytes.specs.formats.Fields.{Tag};
ghost use Rattle.rb_meaning_bytes.specs.formats.Reading.{look, read, read_all};
ghost use Rattle.rb_meaning_bytes.specs.formats.Payloads.{IsRefusalOf, IsRefusal};
ghost use Rattle.rb_meaning_bytes.specs.formats.Refusals.{is_refusal_number, refusal_message};
ghost use Rattle.rb_meaning_bytes.specs.formats.ForestBytes.{refusal_bytes};
ghost use Rattle.rb_trees.specs.Outcome.{Gives};
ghost use Rattle.rb_wire_fields.specs.Buffers.{Keeps};
ghost use Rattle.rb_wire_fields.specs.Stops.{told};
ghost use Rattle.rb_wire_forest.specs.Buffers.{Appends};
ghost use Rattle.rb_wire_forest.specs.Refused.{refused_with, seen};

use crate::heads::first_version;
use crate::writing::version_number;
use bytes::{BufMut, BytesMut};
use rb_trees::{Memory, Version};
use rb_wire_fields::fields::{bad_tag, byte, natural, refused};
use rb_wire_fields::puts::put_natural;
use rb_wire_fields::stop::{TRAILING, Violation};

#[tactic(auto, using(rb_wire_fields::proofs::Kept::kept))]
fn put_refusal(number: u8, at: u32, version: Version, into: &mut BytesMut) -> Result<(), Memory>
    ensures ok { OnOk result (into.new.items ≡ into.old.items ++ refusal_bytes (refused_with version number at)) }
    ensures err { OnErr result (Keeps into.old.items into.new.items) }
{
    into.put_u8(version_number(version))?;
    into.put_u8(number)?;
    put_natural(version, at, into)?;
    Ok(())
}

/// Appends the spelling of a refusal in this version: its number, which the version has, and its place. After Memory the
/// buffer is unchanged.
#[tactic(auto, using(rb_wire_fields::proofs::Kept::kept, crate::proofs::Appended::appends_refusal))]
pub fn encode_refusal(
    number: u8,
    at: u32,
    version: Version,
    into: &mut BytesMut,
) -> Result<(), Memory>
    requires { is_refusal_number version number ≡ true }
    ensures ok { OnOk result (Appends (λ bytes. IsRefusalOf version bytes number at) into.old.items into.new.items) }
    ensures err { OnErr result (into.new.items ≡ into.old.items) }
{
    let len = into.len();
    match put_refusal(number, at, version, into) {
        Ok(()) => Ok(()),
        Err(error) => {
            into.truncate(len);
            Err(error)
        }
    }
}

/// A refusal, with the version that spells it.
#[derive(Clone, Copy)]
struct Refusal {
    version: Version,
    number: u8,
    at: u32,
}

/// Whether the version has a refusal of this number.
fn is_refusal(version: Version, number: u8) -> bool
    ensures { result ≡ is_refusal_number version number }
{
    match version {
        Version::One => (number >= 1 && number <= 6) || (number >= 11 && number <= 13),
        Version::Two => {
            (number >= 1 && number <= 8) || (number >= 11 && number <= 13) || number == 15
        }
    }
}

/// The number of a refusal.
#[tactic(auto, using(crate::proofs::Equations::tags))]
fn refusal_number(version: Version, bytes: &[u8]) -> Result<(u8, &[u8]), Violation>
    ensures { Gives (λ x. (x.0, x.1.now)) told result (look (Tag (λ n. is_refusal_number version n)) bytes.now) }
{
    let (number, rest) = byte(bytes)?;
    if !is_refusal(version, number) {
        return Err(bad_tag(rest));
    }
    Ok((number, rest))
}

/// A refusal at the front of the bytes.
#[tactic(auto, using(crate::proofs::Refused::refusal_read))]
fn first_refusal(bytes: &[u8]) -> Result<(Refusal, &[u8]), Violation>
    ensures { Gives (λ x. (seen x.0, x.1.now)) told result (read refusal_message bytes.now) }
{
    let (version, rest) = first_version(bytes)?;
    let (number, rest) = refusal_number(version, rest)?;
    let (at, rest) = natural(version, rest)?;
    Ok((
        Refusal {
            version,
            number,
            at,
        },
        rest,
    ))
}

/// The refusal that all the bytes are.
#[tactic(auto, unfolding(rb_meaning_bytes::specs::formats::Reading::read_all))]
fn whole(payload: &[u8]) -> Result<Refusal, Violation>
    ensures { Gives seen told result (read_all refusal_message payload.now) }
{
    let (found, rest) = first_refusal(payload)?;
    if !rest.is_empty() {
        return Err(refused(TRAILING, rest));
    }
    Ok(found)
}

/// The number and the place of the refusal that a payload spells, in either version, or None where it spells none.
pub fn decode_refusal(payload: &[u8]) -> Option<(u8, u32)>
    ensures told { IfSome result (λ x. IsRefusal payload.now x.0 x.1) }
    ensures only { (number : ℕ) (at : ℕ) → IsRefusal payload.now number at → result ≡ Some (number, at) }
{
    match whole(payload) {
        Ok(found) => Some((found.number, found.at)),
        Err(_) => None,
    }
}
