// Messages: a script with the values of its inputs.

ghost use Rattle.std.specs.Prelude.{◌≡◌, ◌^◌, [], false, IfOk};
ghost use Rattle.rb_trees.specs.Outcome.{Gives};
ghost use Rattle.rb_meaning_bytes.specs.formats.Pools.{is_among, new_text_test};
ghost use Rattle.rb_meaning_bytes.specs.formats.Fields.{Brief};
ghost use Rattle.rb_meaning_bytes.specs.formats.Reading.{look, read, read_all};
ghost use Rattle.rb_meaning_bytes.specs.formats.ScriptMessages.{more_texts, pool, all_used, script, script_message};
ghost use Rattle.rb_wire_fields.specs.Stops.{fault_of, told};
ghost use Rattle.rb_wire_script.specs.Stops.{seen};

use crate::pools::{Place, Pool};
use crate::steps::block;
use crate::texts::Texts;
use crate::values::{input_values, list_numbers};
use rb_trees::limits::MOST_BLOCKS;
use rb_trees::{Script, Seq, Shared, Value, Version, Word};
use rb_wire_fields::fields::{bad_tag, byte, refused};
use rb_wire_fields::groups::{brief, short};
use rb_wire_fields::stop::{BAD_POOL, BAD_TEXT, Stop, TRAILING, Violation};
use rb_wire_fields::texts::is_text;
use std::alloc::Global;

/// A text of a pool, which none of the earlier ones equals. It stays where it stands.
#[tactic(auto, using(rb_wire_fields::proofs::Equations::texts))]
fn new_text<'a>(earlier: &Texts<'_>, bytes: &'a [u8]) -> Result<(&'a [u8], &'a [u8]), Violation>
    ensures gives { Gives (λ x. (x.0.now, x.1.now)) told result
        (look (Brief (2 ^ 32) (new_text_test earlier.now)) bytes.now) }
    ensures new { IfOk result (λ x. is_among x.0.now earlier.now ≡ false) }
{
    let (text, rest) = brief(4_294_967_296, bytes)?;
    if !is_text(text) {
        return Err(refused(BAD_TEXT, bytes));
    }
    if earlier.has(text) {
        return Err(refused(BAD_POOL, bytes));
    }
    Ok((text, rest))
}

/// So many texts of a pool.
#[tactic(auto, using(crate::proofs::Messages::texts))]
fn more_texts(alloc: Global, count: u32, bytes: &[u8]) -> Result<(Seq<Shared<Word>>, &[u8]), Stop>
    ensures { Gives (λ x. (x.0, x.1.now)) fault_of result (read (more_texts count []) bytes.now) }
{
    let mut texts = Texts::new(alloc);
    let mut rest = bytes;
    for _ in 0..count {
        let (text, behind) = new_text(&texts, rest)?;
        let word = Shared::new(alloc, Seq::from_slice(alloc, text)?)?;
        texts.push(text, word)?;
        rest = behind;
    }
    Ok((texts.into_texts(), rest))
}

/// The pool.
#[tactic(auto, using(crate::proofs::Messages::pools))]
fn pool(alloc: Global, version: Version, bytes: &[u8]) -> Result<(Pool, &[u8]), Stop>
    ensures texts { Gives (λ x. (x.0.texts, x.1.now)) fault_of result (read (pool version) bytes.now) }
    ensures version { IfOk result (λ x. x.0.version ≡ version) }
{
    match version {
        Version::One => {
            let texts = Seq::new(alloc);
            Ok((Pool { version, texts }, bytes))
        }
        Version::Two => {
            let (count, rest) = short(bytes)?;
            let (texts, rest) = more_texts(alloc, count, rest)?;
            Ok((Pool { version, texts }, rest))
        }
    }
}

/// Whether all texts of the pool were used, where this is the end of the code.
#[tactic(auto, using(crate::proofs::Messages::pools))]
fn all_used(pool: &Pool, end: Place<'_>) -> Result<(), Violation>
    ensures { Gives (λ x. (x, end.entry.bytes.now)) told result
        (read (all_used pool.now.version pool.now.texts end.entry.used) end.entry.bytes.now) }
{
    match pool.version {
        Version::One => Ok(()),
        Version::Two => {
            if end.used != pool.texts.len() {
                return Err(refused(BAD_POOL, end.bytes));
            }
            Ok(())
        }
    }
}

/// A script behind its version.
#[tactic(auto, using(crate::proofs::Messages::messages), unfolding(rb_meaning_bytes::specs::formats::Reading::read))]
fn script(
    alloc: Global,
    version: Version,
    bytes: &[u8],
) -> Result<((Version, Script, Seq<Value>), &[u8]), Stop>
    ensures { Gives (λ x. (seen x.0, x.1.now)) fault_of result (read (script version) bytes.now) }
{
    let (pool, rest) = pool(alloc, version, bytes)?;
    let (inputs, bytes) = byte(rest)?;
    let (values, behind) = input_values(alloc, &pool, inputs, Place { used: 0, bytes })?;
    let (body, end) = block(alloc, &pool, MOST_BLOCKS as usize, behind)?;
    all_used(&pool, end)?;
    let script = Script {
        inputs,
        lists: list_numbers(alloc, values.as_slice())?,
        body,
    };
    Ok(((version, script, values), end.bytes))
}

/// A message at the front of the bytes.
#[tactic(auto, using(crate::proofs::Messages::messages), unfolding(rb_meaning_bytes::specs::formats::Reading::read))]
fn message(alloc: Global, bytes: &[u8]) -> Result<((Version, Script, Seq<Value>), &[u8]), Stop>
    ensures { Gives (λ x. (seen x.0, x.1.now)) fault_of result (read script_message bytes.now) }
{
    let (version, rest) = byte(bytes)?;
    match version {
        0x01 => script(alloc, Version::One, rest),
        0x02 => script(alloc, Version::Two, rest),
        _ => Err(Stop::from(bad_tag(rest))),
    }
}

/// The message that all the bytes are.
#[tactic(auto, unfolding(rb_meaning_bytes::specs::formats::Reading::read_all))]
pub(crate) fn whole(alloc: Global, payload: &[u8]) -> Result<(Version, Script, Seq<Value>), Stop>
    ensures { Gives seen fault_of result (read_all script_message payload.now) }
{
    let (sent, rest) = message(alloc, payload)?;
    if !rest.is_empty() {
        return Err(Stop::from(refused(TRAILING, rest)));
    }
    Ok(sent)
}
