// Texts of a pool, read where their places stand.

ghost use Rattle.std.specs.Prelude.{None};
ghost use Rattle.rb_meaning_bytes.specs.formats.Scripts as format;
ghost use Rattle.rb_trees.specs.Outcome.{Gives};
ghost use Rattle.rb_wire_fields.specs.Stops.{fault_of};
ghost use Rattle.rb_wire_script.specs.Parts.{reads};
ghost use Rattle.rb_wire_script.specs.Stops.{at_place};

use crate::names::{is_name, lent_name};
use rb_trees::limits::LONGEST_TEXT;
use rb_trees::{Seq, Shared, Version, Word};
use rb_wire_fields::fields::refused;
use rb_wire_fields::groups::short;
use rb_wire_fields::stop::{BAD_POOL, BAD_TEXT, Stop};
use rb_wire_fields::texts::lent_text;
use std::alloc::Global;

/// What is read from: the version, and the texts of the pool. Version 1 has none.
#[derive(Drop)]
pub(crate) struct Pool {
    pub version: Version,
    pub texts: Seq<Shared<Word>>,
}

/// Where reading stands: how many texts of the pool were used, and the bytes that are left.
#[derive(Clone, Copy)]
pub(crate) struct Place<'a> {
    pub used: usize,
    pub bytes: &'a [u8],
}

/// The text at whose place in the pool reading stands.
#[tactic(auto, using(crate::proofs::Pooled::places), unfolding(rb_meaning_bytes::specs::formats::Reading::read))]
fn pooled<'a>(pool: &Pool, from: Place<'a>) -> Result<(Shared<Word>, Place<'a>), Stop>
    ensures { Gives at_place fault_of result (reads (format.pooled pool.now.texts (λ _. None)) from.entry) }
{
    let (place, bytes) = short(from.bytes)?;
    let place = place as usize;
    if place > from.used {
        return Err(Stop::from(refused(BAD_POOL, from.bytes)));
    }
    match pool.texts.get(place) {
        Some(text) => {
            let used = if place == from.used {
                from.used + 1
            } else {
                from.used
            };
            Ok((text.share()?, Place { used, bytes }))
        }
        None => Err(Stop::from(refused(BAD_POOL, from.bytes))),
    }
}

/// The name of a method.
#[tactic(auto, using(crate::proofs::Pooled::words))]
pub(crate) fn name<'a>(
    alloc: Global,
    pool: &Pool,
    from: Place<'a>,
) -> Result<(Shared<Word>, Place<'a>), Stop>
    ensures { Gives at_place fault_of result (reads (format.name pool.now.version pool.now.texts) from.entry) }
{
    match pool.version {
        Version::One => {
            let (name, bytes) = lent_name(from.bytes)?;
            let name = Shared::new(alloc, Seq::from_slice(alloc, name)?)?;
            let used = from.used;
            Ok((name, Place { used, bytes }))
        }
        Version::Two => {
            let (name, behind) = pooled(pool, from)?;
            if !is_name(name.get().as_slice()) {
                return Err(Stop::from(refused(BAD_TEXT, from.bytes)));
            }
            Ok((name, behind))
        }
    }
}

/// A text that is a value.
#[tactic(auto, using(crate::proofs::Pooled::words))]
pub(crate) fn text<'a>(
    alloc: Global,
    pool: &Pool,
    from: Place<'a>,
) -> Result<(Shared<Word>, Place<'a>), Stop>
    ensures { Gives at_place fault_of result (reads (format.text pool.now.version pool.now.texts) from.entry) }
{
    match pool.version {
        Version::One => {
            let (text, bytes) = lent_text(from.bytes)?;
            let text = Shared::new(alloc, Seq::from_slice(alloc, text)?)?;
            let used = from.used;
            Ok((text, Place { used, bytes }))
        }
        Version::Two => {
            let (text, behind) = pooled(pool, from)?;
            if text.get().len() > LONGEST_TEXT {
                return Err(Stop::from(refused(BAD_TEXT, from.bytes)));
            }
            Ok((text, behind))
        }
    }
}
