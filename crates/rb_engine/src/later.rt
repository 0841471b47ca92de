// The names after the first few of a frame, found by an index.

ghost use Rattle.std.specs.Prelude.{◌≡◌, Some, OnOk, OnErr};
ghost use Rattle.rb_engine.specs.Places.{IsIndexed, cut, first_place, unboxed, with_name};

use crate::name::{Name, Sought};
use rb_names::Names;
use rb_trees::{Memory, Value, Word};
use std::alloc::Global;

/// The names of a frame after its first so many: `IsIndexed`.
#[derive(Drop)]
pub struct Later {
    pub first: usize,
    pub names: Names,
}

/// The first place of a name.
#[tactic(auto, using(crate::proofs::Placed::place_found, crate::proofs::Placed::place_passed))]
pub fn place_among(names: &[(Name, Value)], name: &[u8]) -> Option<usize>
    ensures { result ≡ first_place names.now name.now }
{
    let sought = Sought::of(name);
    for (place, named) in names.iter().enumerate() {
        if named.0.is(&sought) {
            return Some(place);
        }
    }
    None
}

impl Later {
    /// The first place of a name among those of the frame.
    #[tactic(auto, using(crate::proofs::Indexed::place_before))]
    #[inline(never)]
    pub fn place_of(&self, names: &[(Name, Value)], name: &Word) -> Option<usize>
        requires { IsIndexed (Some self.now) names.now }
        ensures { result ≡ first_place names.now name.now }
    {
        if names.len() <= self.first {
            return place_among(names, name.as_slice());
        }
        match place_among(&names[..self.first], name.as_slice()) {
            Some(place) => Some(place),
            None => match self.names.find(name) {
                Some(place) => Some(self.first + place),
                None => None,
            },
        }
    }

    /// The frame keeps its first `count` names.
    pub fn truncate(&mut self, count: usize)
        ensures { self.new ≡ cut count self.old }
    {
        self.names.truncate(count.saturating_sub(self.first));
    }
}

/// Notes a name that is bound after so many. After an error nothing changed.
#[inline(never)]
pub fn note(
    alloc: Global,
    later: &mut Option<Box<Later>>,
    count: usize,
    name: &[u8],
) -> Result<(), Memory>
    ensures noted { OnOk result (unboxed later.new ≡ with_name count name.now (unboxed later.old)) }
    ensures kept { OnErr result (unboxed later.new ≡ unboxed later.old) }
{
    let word = Word::from_slice(alloc, name)?;
    match later {
        Some(later) => {
            if later.first <= count {
                later.names.push(alloc, word)?;
            }
        }
        None => {
            let mut names = Names::new(alloc);
            names.push(alloc, word)?;
            *later = Some(Box::new(
                alloc,
                Later {
                    first: count,
                    names,
                },
            )?);
        }
    }
    Ok(())
}
