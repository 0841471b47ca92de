// Lists of changes, written as rows or made by chance.

ghost use Rattle.std.specs.Prelude.{◌<◌};

use crate::client::hosts::host_of;
use rb_changes::are_bounded;
use rb_session::MeddledLink;
use rb_trees::{Change, Seq, Shared, Value};
use std::alloc::Global;
use std::test::Fail;

/// The new value of a field.
#[derive(Clone, Copy)]
pub enum Given<'a> {
    Int(i64),
    Bool(bool),
    Text(&'a str),
}

/// A change: an object, a field and its new value.
pub type Row<'a> = (u32, &'a str, Given<'a>);

/// The change of a row.
fn change_of(alloc: Global, row: Row<'_>) -> Result<Change, Fail> {
    let (object, field, given) = row;
    let field = Seq::from_slice(alloc, field.as_bytes())?;
    let value = match given {
        Given::Int(number) => Value::Int(number),
        Given::Bool(truth) => Value::Bool(truth),
        Given::Text(text) => {
            let word = Seq::from_slice(alloc, text.as_bytes())?;
            Value::Text(Shared::new(alloc, word)?)
        }
    };
    Ok(Change {
        object,
        field,
        value,
    })
}

/// The lists of changes of these lists of rows.
pub fn lists_of(alloc: Global, rows: &[&[Row<'_>]]) -> Result<Seq<Seq<Change>>, Fail> {
    let mut lists = Seq::new(alloc);
    for rows in rows {
        let mut list = Seq::new(alloc);
        for row in *rows {
            list.push(change_of(alloc, *row)?)?;
        }
        lists.push(list)?;
    }
    Ok(lists)
}

/// A link to a server of a service's text, at which others make these changes.
pub fn meddled_link(
    alloc: Global,
    text: &str,
    others: Seq<Seq<Change>>,
) -> Result<MeddledLink, Fail> {
    if are_bounded(others.as_slice()) {
        return Ok(MeddledLink::make(alloc, host_of(alloc, text)?, others));
    }
    Err(Fail::new("a value is too long"))
}

/// Numbers by chance, from a seed.
#[derive(Drop)]
pub struct Chance {
    pub seed: u64,
}

impl Chance {
    /// The next number, which is below a bound.
    fn below(&mut self, bound: u64) -> u64
        requires { 0 < bound }
        ensures { result < bound }
    {
        self.seed = self
            .seed
            .wrapping_mul(6_364_136_223_846_793_005)
            .wrapping_add(1_442_695_040_888_963_407);
        (self.seed >> 33) % bound
    }
}

/// A change by chance. Some are of no such object or field, and some of another kind than the field's.
fn row_by_chance(chance: &mut Chance) -> Row<'static> {
    let object = chance.below(4) as u32;
    let field = match chance.below(5) {
        0 => "list",
        1 => "date",
        2 => "name",
        _ => "size",
    };
    let given = match chance.below(6) {
        0 => Given::Text("c"),
        1 => Given::Text("longer"),
        2 => Given::Bool(true),
        _ => Given::Int(chance.below(1000) as i64),
    };
    (object, field, given)
}

/// So many lists by chance, of up to three changes each.
pub fn lists_by_chance(alloc: Global, seed: u64, count: u64) -> Result<Seq<Seq<Change>>, Fail> {
    let mut chance = Chance { seed };
    let mut lists = Seq::new(alloc);
    for _ in 0..count {
        let mut list = Seq::new(alloc);
        for _ in 0..chance.below(4) {
            list.push(change_of(alloc, row_by_chance(&mut chance))?)?;
        }
        lists.push(list)?;
    }
    Ok(lists)
}
