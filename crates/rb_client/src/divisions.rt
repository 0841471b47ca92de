// The divisions of a program's batches, found by the batches' positions.

ghost use Rattle.std.specs.Prelude.{◌≡◌, nat_eq, IfOk, OnOk};
ghost use Rattle.std.specs.HashMap.{get};
ghost use Rattle.std.specs.Option.{option_copied};
ghost use Rattle.rb_client.specs.Splits.{ArePlaces, Notes, split_at};

use rb_trees::{Memory, Seq, Split};
use std::alloc::Global;
use std::collections::HashMap;
use std::marker::Model;

/// The divisions of a program's batches, with the place of each by its batch's position. Contracts see their list.
#[derive(Drop)]
pub struct Divisions<'a> {
    splits: &'a Seq<Split>,
    places: HashMap<u32, usize>,
}

impl<'a> Model for Divisions<'a> {
    ghost use Rattle.std.specs.Prelude.{List, nat_eq};
    ghost use Rattle.std.specs.Coded.{coded_list};
    ghost use Rattle.std.specs.HashMap.{get};
    ghost use Rattle.rb_trees.specs.declared.remainders.Split.{Split};
    ghost use Rattle.rb_trees.specs.contracts.remainders.Split as split_code;
    ghost use Rattle.rb_client.specs.Splits.{ArePlaces};

    ghost Value = { List Split };

    ghost coded = { coded_list split_code.the_row.coded };

    ghost view = { λ d. d.splits.now };

    ghost invariant = { λ d. ArePlaces (get nat_eq d.places) d.splits.now };
}

// Notes the place of a division.
fn note(places: &mut HashMap<u32, usize>, split: &Split, place: usize) -> Result<(), Memory>
    ensures { OnOk result (Notes split.now place (get nat_eq places.old) (get nat_eq places.new)) }
{
    let _before = places.insert(split.at, place)?;
    Ok(())
}

// The place of the first division at each position.
#[tactic(auto, using(crate::proofs::Found::place_more))]
fn places_of(alloc: Global, splits: &[Split]) -> Result<HashMap<u32, usize>, Memory>
    ensures { IfOk result (λ places. ArePlaces (get nat_eq places) splits.now) }
{
    let mut places = HashMap::new(alloc);
    let mut place = splits.len();
    'back: while place > 0 {
        place -= 1;
        note(&mut places, &splits[place], place)?;
    }
    Ok(places)
}

impl<'a> Divisions<'a> {
    /// The divisions of this list. Its error is want of memory.
    pub fn of(alloc: Global, splits: &'a Seq<Split>) -> Result<Divisions<'a>, Memory>
        ensures { IfOk result (λ divisions. divisions ≡ splits.now) }
    {
        let places = places_of(alloc, splits.as_slice())?;
        Ok(Divisions { splits, places })
    }

    /// The division of the batch at a position: `split_at`.
    pub fn find(&self, at: u32) -> Option<&'a Split>
        ensures { option_copied result ≡ split_at self.now at }
    {
        match self.places.get(&at) {
            Some(place) => self.splits.get(*place),
            None => None,
        }
    }
}
