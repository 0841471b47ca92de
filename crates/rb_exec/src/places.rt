// The places that are kept of numbers.

ghost use Rattle.std.specs.Prelude.{◌≡◌, ◌<◌, ℕ, None, OnOk, OnErr};
ghost use Rattle.std.specs.Ordering.{nat_cmp};
ghost use Rattle.std.specs.BTreeMap.{get};
ghost use Rattle.rb_exec.specs.Bindings.{Sets};
ghost use Rattle.rb_exec.specs.Places.{listed, place_at};

use rb_trees::Memory;
use std::alloc::Global;
use std::collections::BTreeMap;

// How many numbers are indexes of a list. A client numbers the variables of a script from 0, so few are greater; a sender
// that numbers them otherwise makes the list no longer than this.
const INDEXED: u32 = 256;

/// For each number the place that was set last, if any: `place_at`.
#[derive(Drop)]
pub(crate) struct Places {
    // the places of the numbers below `INDEXED`, as far as one was set
    low: Vec<Option<usize>>,
    // the places of the other numbers
    high: BTreeMap<u32, usize>,
}

impl Places {
    /// No places.
    pub(crate) fn new(alloc: Global) -> Places
        ensures { (n : ℕ) → place_at result n ≡ None }
    {
        Places {
            low: Vec::new(alloc),
            high: BTreeMap::new(alloc),
        }
    }

    /// The place of a number.
    pub(crate) fn find(&self, number: u32) -> Option<usize>
        ensures { result ≡ place_at self.now number }
    {
        if number < INDEXED {
            place_in_list(self.low.as_slice(), number as usize)
        } else {
            self.high.get(&number).copied()
        }
    }

    /// Keeps another place of a number, or none. After an error the places are as they were.
    #[inline(always)]
    pub(crate) fn set(&mut self, number: u32, place: Option<usize>) -> Result<(), Memory>
        ensures set { OnOk result (Sets number place (place_at self.old) (place_at self.new)) }
        ensures kept { OnErr result ((n : ℕ) → place_at self.new n ≡ place_at self.old n) }
    {
        if number < INDEXED {
            set_in_list(&mut self.low, number as usize, place)
        } else {
            set_in_map(&mut self.high, number, place)
        }
    }
}

// The place at an index.
fn place_in_list(low: &[Option<usize>], index: usize) -> Option<usize>
    ensures { result ≡ listed low.now index }
{
    low.get(index).copied().flatten()
}

// Keeps another place at an index, and none at the indexes between the end and it.
fn set_in_list(
    low: &mut Vec<Option<usize>>,
    index: usize,
    place: Option<usize>,
) -> Result<(), Memory>
    requires { index < INDEXED }
    ensures set { OnOk result (Sets index place (listed low.old.items) (listed low.new.items)) }
    ensures kept { OnErr result (low.new.items ≡ low.old.items) }
{
    if low.len() <= index {
        low.resize(index + 1, None)?;
    }
    low[index] = place;
    Ok(())
}

// Keeps another place of a key, or none.
fn set_in_map(
    high: &mut BTreeMap<u32, usize>,
    number: u32,
    place: Option<usize>,
) -> Result<(), Memory>
    ensures set { OnOk result (Sets number place (get nat_cmp high.old) (get nat_cmp high.new)) }
    ensures kept { OnErr result ((n : ℕ) → get nat_cmp high.new n ≡ get nat_cmp high.old n) }
{
    match place {
        Some(place) => {
            let _before = high.insert(number, place)?;
        }
        None => {
            let _before = high.remove(&number);
        }
    }
    Ok(())
}
