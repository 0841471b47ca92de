// The fields of messages as the codecs read them, without the reason why one isn't there.

ghost use Rattle.std.specs.Prelude.{◌<◌, length, IfSome};

use rb_trees::Version;
use rb_wire_fields::{fields, groups, texts};

/// A byte.
#[tactic(auto, using(crate::proofs::Shorter::fields))]
pub(crate) fn byte(bytes: &[u8]) -> Option<(u8, &[u8])>
    ensures { IfSome result (λ x. length x.1.now < length bytes.now) }
{
    match fields::byte(bytes) {
        Ok(found) => Some(found),
        Err(_) => None,
    }
}

/// A truth value.
#[tactic(auto, using(crate::proofs::Shorter::fields))]
pub(crate) fn truth(bytes: &[u8]) -> Option<(bool, &[u8])>
    ensures { IfSome result (λ x. length x.1.now < length bytes.now) }
{
    match fields::truth(bytes) {
        Ok(found) => Some(found),
        Err(_) => None,
    }
}

/// A count of four bytes.
#[tactic(auto, using(crate::proofs::Shorter::fields))]
pub(crate) fn count(bytes: &[u8]) -> Option<(u32, &[u8])>
    ensures { IfSome result (λ x. length x.1.now < length bytes.now) }
{
    match fields::number(bytes) {
        Ok(found) => Some(found),
        Err(_) => None,
    }
}

/// A number of 32 bits, as the version spells it.
#[tactic(auto, using(crate::proofs::Shorter::fields))]
pub(crate) fn natural(version: Version, bytes: &[u8]) -> Option<(u32, &[u8])>
    ensures { IfSome result (λ x. length x.1.now < length bytes.now) }
{
    match fields::natural(version, bytes) {
        Ok(found) => Some(found),
        Err(_) => None,
    }
}

/// A signed number, as the version spells it.
#[tactic(auto, using(crate::proofs::Shorter::fields))]
pub(crate) fn integer(version: Version, bytes: &[u8]) -> Option<(i64, &[u8])>
    ensures { IfSome result (λ x. length x.1.now < length bytes.now) }
{
    match fields::integer(version, bytes) {
        Ok(found) => Some(found),
        Err(_) => None,
    }
}

/// A text, as the version spells it where it stands in no pool.
#[tactic(auto, using(crate::proofs::Shorter::fields))]
pub(crate) fn words(version: Version, bytes: &[u8]) -> Option<(&[u8], &[u8])>
    ensures { IfSome result (λ x. length x.1.now < length bytes.now) }
{
    match texts::words(version, bytes) {
        Ok(found) => Some(found),
        Err(_) => None,
    }
}

/// A text behind its length in groups.
#[tactic(auto, using(crate::proofs::Shorter::fields))]
pub(crate) fn brief(bytes: &[u8]) -> Option<(&[u8], &[u8])>
    ensures { IfSome result (λ x. length x.1.now < length bytes.now) }
{
    match groups::brief(4_294_967_295, bytes) {
        Ok(found) => Some(found),
        Err(_) => None,
    }
}

/// Bytes behind their length of four bytes, whatever they are.
pub(crate) fn lengthy(bytes: &[u8]) -> Option<(&[u8], &[u8])>
    ensures { IfSome result (λ x. length x.1.now < length bytes.now) }
{
    let count = texts::length_of(bytes) as usize;
    if bytes.len() < 4 + count {
        return None;
    }
    Some(texts::behind(bytes, count))
}
