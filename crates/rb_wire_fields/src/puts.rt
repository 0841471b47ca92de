// Fields and primitive values as bytes, at the end of a buffer. After an error the buffer has kept its bytes. What has another
// spelling in each version is put by the version.

ghost use Rattle.std.specs.Prelude.{◌≡◌, ◌<◌, ◌^◌, ◌++◌, OnOk, OnErr};
ghost use Rattle.rb_meaning_bytes.specs.formats.Fields as field;
ghost use Rattle.rb_meaning_bytes.specs.formats.ScriptBytes.{natural_bytes, integer_bytes, words_bytes, value_bytes};
ghost use Rattle.rb_meaning_bytes.specs.formats.Shorts as in_groups;
ghost use Rattle.rb_wire_fields.specs.Buffers.{Keeps};

use bytes::{BufMut, BytesMut};
use rb_trees::{Memory, Value, Version};

/// A number of 32 bits.
#[tactic(auto, using(crate::proofs::Kept::kept), unfolding(rb_meaning_bytes::specs::formats::Fields::number))]
pub fn put_number(n: u32, into: &mut BytesMut) -> Result<(), Memory>
    ensures ok { OnOk result (into.new.items ≡ into.old.items ++ field.number n) }
    ensures err { OnErr result (Keeps into.old.items into.new.items) }
{
    into.put_u32(n)?;
    Ok(())
}

/// A count or a length; of one from 2^32 on, what 32 bits hold of it.
#[tactic(auto, using(crate::proofs::Kept::low_bits))]
pub fn put_count(count: usize, into: &mut BytesMut) -> Result<(), Memory>
    ensures ok { OnOk result (into.new.items ≡ into.old.items ++ field.number count) }
    ensures err { OnErr result (Keeps into.old.items into.new.items) }
{
    put_number((count % 4_294_967_296) as u32, into)?;
    Ok(())
}

/// A truth value.
#[tactic(auto, using(crate::proofs::Kept::kept))]
pub fn put_truth(b: bool, into: &mut BytesMut) -> Result<(), Memory>
    ensures ok { OnOk result (into.new.items ≡ into.old.items ++ field.truth b) }
    ensures err { OnErr result (Keeps into.old.items into.new.items) }
{
    if b {
        into.put_u8(1)?;
        Ok(())
    } else {
        into.put_u8(0)?;
        Ok(())
    }
}

/// A text or a name: its length, and its bytes.
#[tactic(auto, using(crate::proofs::Kept::kept))]
pub fn put_text(text: &[u8], into: &mut BytesMut) -> Result<(), Memory>
    ensures ok { OnOk result (into.new.items ≡ into.old.items ++ field.text text.now) }
    ensures err { OnErr result (Keeps into.old.items into.new.items) }
{
    put_count(text.len(), into)?;
    into.put_slice(text)?;
    Ok(())
}

/// A number in at most so many groups and a last one.
#[tactic(auto, using(crate::proofs::Kept::groups))]
fn put_groups(more: u32, n: u64, into: &mut BytesMut) -> Result<(), Memory>
    requires { n < in_groups.limit 128 more }
    ensures ok { OnOk result (into.new.items ≡ into.old.items ++ in_groups.groups more n) }
    ensures err { OnErr result (Keeps into.old.items into.new.items) }
{
    if more == 0 || n < 128 {
        into.put_u8(n as u8)?;
        return Ok(());
    }
    into.put_u8(128 + (n % 128) as u8)?;
    put_groups(more - 1, n / 128, into)?;
    Ok(())
}

/// A number of 32 bits in groups.
#[tactic(auto, unfolding(rb_meaning_bytes::specs::formats::Shorts::short))]
pub fn put_short(n: u32, into: &mut BytesMut) -> Result<(), Memory>
    ensures ok { OnOk result (into.new.items ≡ into.old.items ++ in_groups.short n) }
    ensures err { OnErr result (Keeps into.old.items into.new.items) }
{
    put_groups(4, u64::from(n), into)
}

/// The number without a sign that stands for a signed number.
fn fold(number: i64) -> u64
    ensures { result ≡ in_groups.folded number }
{
    if number < 0 {
        2 * ((-1 - number) as u64) + 1
    } else {
        2 * (number as u64)
    }
}

/// A signed number of 64 bits in groups.
#[tactic(auto, unfolding(rb_meaning_bytes::specs::formats::Shorts::zig))]
fn put_zig(number: i64, into: &mut BytesMut) -> Result<(), Memory>
    ensures ok { OnOk result (into.new.items ≡ into.old.items ++ in_groups.zig number) }
    ensures err { OnErr result (Keeps into.old.items into.new.items) }
{
    put_groups(9, fold(number), into)
}

/// A number of 32 bits.
pub fn put_natural(version: Version, n: u32, into: &mut BytesMut) -> Result<(), Memory>
    ensures ok { OnOk result (into.new.items ≡ into.old.items ++ natural_bytes version n) }
    ensures err { OnErr result (Keeps into.old.items into.new.items) }
{
    match version {
        Version::One => put_number(n, into),
        Version::Two => put_short(n, into),
    }
}

/// A length or a count. There is no room for what has 2^32 and more.
pub fn put_length(version: Version, count: usize, into: &mut BytesMut) -> Result<(), Memory>
    ensures ok { OnOk result (into.new.items ≡ into.old.items ++ natural_bytes version count) }
    ensures err { OnErr result (Keeps into.old.items into.new.items) }
{
    if count > 4_294_967_295 {
        return Err(Memory);
    }
    put_natural(version, count as u32, into)
}

/// A signed number of 64 bits.
#[tactic(auto, using(crate::proofs::Kept::kept), unfolding(rb_meaning_bytes::specs::formats::Fields::wide_number))]
fn put_integer(version: Version, number: i64, into: &mut BytesMut) -> Result<(), Memory>
    ensures ok { OnOk result (into.new.items ≡ into.old.items ++ integer_bytes version number) }
    ensures err { OnErr result (Keeps into.old.items into.new.items) }
{
    match version {
        Version::One => {
            into.put_i64(number)?;
            Ok(())
        }
        Version::Two => put_zig(number, into),
    }
}

/// A text behind its length in groups.
#[tactic(auto, using(crate::proofs::Kept::kept))]
pub fn put_brief(text: &[u8], into: &mut BytesMut) -> Result<(), Memory>
    ensures ok { OnOk result (into.new.items ≡ into.old.items ++ field.brief text.now) }
    ensures err { OnErr result (Keeps into.old.items into.new.items) }
{
    put_length(Version::Two, text.len(), into)?;
    into.put_slice(text)?;
    Ok(())
}

/// A text that stands in no pool.
pub fn put_words(version: Version, text: &[u8], into: &mut BytesMut) -> Result<(), Memory>
    ensures ok { OnOk result (into.new.items ≡ into.old.items ++ words_bytes version text.now) }
    ensures err { OnErr result (Keeps into.old.items into.new.items) }
{
    match version {
        Version::One => put_text(text, into),
        Version::Two => put_brief(text, into),
    }
}

/// A primitive value; nothing for another.
#[tactic(auto, using(crate::proofs::Kept::values))]
pub fn put_value(version: Version, value: &Value, into: &mut BytesMut) -> Result<(), Memory>
    ensures ok { OnOk result (into.new.items ≡ into.old.items ++ value_bytes version value.now) }
    ensures err { OnErr result (Keeps into.old.items into.new.items) }
{
    match value {
        Value::Int(number) => {
            into.put_u8(0x01)?;
            put_integer(version, *number, into)?;
            Ok(())
        }
        Value::Bool(truth) => {
            into.put_u8(0x02)?;
            put_truth(*truth, into)?;
            Ok(())
        }
        Value::Text(text) => {
            into.put_u8(0x03)?;
            put_words(version, text.get().as_slice(), into)?;
            Ok(())
        }
        _ => Ok(()),
    }
}
