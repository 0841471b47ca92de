// Texts and values, read at the front of the bytes.

ghost use Rattle.std.specs.Prelude.{◌≡◌, ◌+◌, ◌≤◌, length, drop, IfOk};
ghost use Rattle.std.specs.Str.{is_utf8};
ghost use Rattle.rb_meaning_bytes.specs.formats.Fields.{Text, Brief, announced, content};
ghost use Rattle.rb_meaning_bytes.specs.formats.Pools.{text_test};
ghost use Rattle.rb_meaning_bytes.specs.formats.Reading.{look, read};
ghost use Rattle.rb_meaning_bytes.specs.formats.Values as format;
ghost use Rattle.rb_trees.specs.Limits.{longest_text};
ghost use Rattle.rb_trees.specs.Outcome.{Gives};
ghost use Rattle.rb_wire_fields.specs.Items.{value_seen};
ghost use Rattle.rb_wire_fields.specs.Stops.{fault_of, told};

use crate::fields::{bad_tag, byte, cut, integer, refused, truth};
use crate::groups::brief;
use crate::stop::{BAD_TEXT, Stop, Violation};
use rb_trees::limits::LONGEST_TEXT;
use rb_trees::{Memory, Seq, Shared, Value, Version};
use std::alloc::Global;

/// A primitive value, whose text stands in the bytes that it was read from.
#[derive(Clone, Copy)]
pub enum Item<'a> {
    Int(i64),
    Bool(bool),
    Text(&'a [u8]),
}

/// Whether the bytes are UTF-8.
#[tactic(auto, using(crate::proofs::Utf8::not_utf8, crate::proofs::Utf8::utf8))]
pub fn is_text(bytes: &[u8]) -> bool
    ensures { result ≡ is_utf8 bytes.now }
{
    match str::from_utf8(bytes) {
        Ok(_) => true,
        Err(_) => false,
    }
}

/// The length that stands before a text.
#[tactic(auto, unfolding(rb_meaning_bytes::specs::formats::Fields::announced))]
pub fn length_of(bytes: &[u8]) -> u32
    ensures { result ≡ announced bytes.now }
{
    if bytes.len() < 4 {
        return 0;
    }
    u32::from_be_bytes([bytes[0], bytes[1], bytes[2], bytes[3]])
}

/// The bytes of a text after its length, and the bytes after them.
#[tactic(auto, using(crate::proofs::Utf8::behind), unfolding(rb_meaning_bytes::specs::formats::Fields::content))]
pub fn behind(bytes: &[u8], count: usize) -> (&[u8], &[u8])
    requires is { count ≡ announced bytes.now }
    requires whole { 4 + count ≤ length bytes.now }
    ensures content { result.0.now ≡ content bytes.now }
    ensures rest { result.1.now ≡ drop (4 + announced bytes.now) bytes.now }
{
    let (_, tail) = bytes.split_at(4);
    tail.split_at(count)
}

/// A text, which stays where it stands.
#[tactic(auto, unfolding(rb_meaning_bytes::specs::formats::Reading::look))]
pub fn lent_text(bytes: &[u8]) -> Result<(&[u8], &[u8]), Violation>
    ensures { Gives (λ x. (x.0.now, x.1.now)) told result (look Text bytes.now) }
{
    let count = length_of(bytes) as usize;
    if count > LONGEST_TEXT {
        return Err(refused(BAD_TEXT, bytes));
    }
    if bytes.len() < 4 + count {
        return Err(cut());
    }
    let (text, rest) = behind(bytes, count);
    if !is_text(text) {
        return Err(refused(BAD_TEXT, bytes));
    }
    Ok((text, rest))
}

/// A text behind its length in groups, which stays where it stands.
#[tactic(auto, using(crate::proofs::Equations::texts))]
fn brief_text(bytes: &[u8]) -> Result<(&[u8], &[u8]), Violation>
    ensures { Gives (λ x. (x.0.now, x.1.now)) told result (look (Brief longest_text text_test) bytes.now) }
{
    let (text, rest) = brief(LONGEST_TEXT, bytes)?;
    if !is_text(text) {
        return Err(refused(BAD_TEXT, bytes));
    }
    Ok((text, rest))
}

/// A text, as the version spells it where it stands in no pool. It stays where it stands.
#[tactic(auto, using(crate::proofs::Equations::leaves))]
pub fn words(version: Version, bytes: &[u8]) -> Result<(&[u8], &[u8]), Violation>
    ensures { Gives (λ x. (x.0.now, x.1.now)) told result (read (format.words version) bytes.now) }
{
    match version {
        Version::One => lent_text(bytes),
        Version::Two => brief_text(bytes),
    }
}

/// A primitive value, as the version spells it. A text of it stays where it stands.
#[tactic(auto, using(crate::proofs::Equations::values), unfolding(rb_meaning_bytes::specs::formats::Reading::read))]
#[inline(always)]
pub fn primitive(version: Version, bytes: &[u8]) -> Result<(Item<'_>, &[u8]), Violation>
    ensures { Gives (λ x. (value_seen x.0, x.1.now)) told result (read (format.value version) bytes.now) }
{
    let (tag, rest) = byte(bytes)?;
    match tag {
        0x01 => {
            let (number, rest) = integer(version, rest)?;
            Ok((Item::Int(number), rest))
        }
        0x02 => {
            let (truth, rest) = truth(rest)?;
            Ok((Item::Bool(truth), rest))
        }
        0x03 => {
            let (text, rest) = words(version, rest)?;
            Ok((Item::Text(text), rest))
        }
        _ => Err(bad_tag(rest)),
    }
}

/// The value that an item is.
pub fn value_of(alloc: Global, item: Item<'_>) -> Result<Value, Memory>
    ensures { IfOk result (λ value. value ≡ value_seen item.entry) }
{
    match item {
        Item::Int(number) => Ok(Value::Int(number)),
        Item::Bool(truth) => Ok(Value::Bool(truth)),
        Item::Text(text) => {
            let text = Seq::from_slice(alloc, text)?;
            Ok(Value::Text(Shared::new(alloc, text)?))
        }
    }
}

/// A primitive value, as the version spells it, with a copy of its text.
pub fn value(alloc: Global, version: Version, bytes: &[u8]) -> Result<(Value, &[u8]), Stop>
    ensures { Gives (λ x. (x.0, x.1.now)) fault_of result (read (format.value version) bytes.now) }
{
    let (item, rest) = primitive(version, bytes)?;
    Ok((value_of(alloc, item)?, rest))
}
