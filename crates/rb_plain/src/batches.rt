// The batches of a program by their positions.

ghost use Rattle.std.specs.Prelude.{◌≡◌, ℕ, nat_eq, IfOk, OnOk};
ghost use Rattle.std.specs.HashMap.{get};
ghost use Rattle.std.specs.Option.{option_copied, option_map};
ghost use Rattle.rb_trees.specs.mirror.Declarations.{mirror_program};
ghost use Rattle.rb_plain.specs.Batches as words;
ghost use Rattle.rb_plain.specs.Batches.{AreBatchesOf, Notes, found, place_in};

use rb_flow::{OpenBatch, collect_batches};
use rb_marks::Facts;
use rb_trees::{Memory, Seq, Word};
use std::alloc::Global;
use std::collections::HashMap;

/// The batches of a program, and where each of them stands among them, by its position.
#[derive(Drop)]
pub struct Batches<'p> {
    batches: Seq<OpenBatch<'p>>,
    places: HashMap<u32, usize>,
}

/// The root of a batch, which is the last variable in scope where it begins, and its node, which is the batch's position.
pub fn root_of<'b>(batch: &'b OpenBatch<'_>) -> Option<(&'b Word, u32)>
    ensures { option_map (λ root. (root.0.now, root.1)) result ≡ words.root_of batch.now }
{
    batch.scope.newest()
}

// Notes the place of a batch.
fn note(places: &mut HashMap<u32, usize>, batch: &OpenBatch<'_>, place: usize) -> Result<(), Memory>
    ensures { OnOk result (Notes batch.now place (get nat_eq places.old) (get nat_eq places.new)) }
{
    if let Some(root) = root_of(batch) {
        let _before = places.insert(root.1, place)?;
    }
    Ok(())
}

// The place of the first batch at each position.
fn places_of(alloc: Global, batches: &[OpenBatch<'_>]) -> Result<HashMap<u32, usize>, Memory>
    ensures { IfOk result (λ places. (at : ℕ) → get nat_eq places at ≡ place_in batches.now at 0) }
{
    let mut places = HashMap::new(alloc);
    let mut place = batches.len();
    'back: while place > 0 {
        place -= 1;
        note(&mut places, &batches[place], place)?;
    }
    Ok(places)
}

impl<'p> Batches<'p> {
    /// The batches of a program.
    pub fn of(alloc: Global, facts: &Facts<'p>) -> Result<Batches<'p>, Memory>
        ensures { IfOk result (λ batches. AreBatchesOf (mirror_program facts.now) batches) }
    {
        let batches = collect_batches(alloc, facts, facts.typed().program())?;
        let places = places_of(alloc, batches.as_slice())?;
        Ok(Batches { batches, places })
    }

    /// The batch at a position.
    pub fn find(&self, at: u32) -> Option<&OpenBatch<'p>>
        ensures { option_copied result ≡ found self.now at }
    {
        match self.places.get(&at) {
            Some(place) => self.batches.get(*place),
            None => None,
        }
    }
}
