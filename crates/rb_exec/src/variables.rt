// The variables of a script.

ghost use Rattle.std.specs.Prelude.{◌≡◌, ◌-◌, [], ◌∷◌, length, reverse, take, slice_get, vec_len, OnOk, OnErr};
ghost use Rattle.std.specs.Option.{option_copied, option_map};
ghost use Rattle.rb_meaning_code.specs.ScriptRun.{latest};
ghost use Rattle.rb_exec.specs.Bindings.{latest_binding, oldest, without_latest};

use crate::places::Places;
use rb_trees::{Memory, Value};
use std::alloc::Global;
use std::marker::Model;

/// A variable that was bound to a value, and the place of its binding before.
#[derive(Drop)]
struct Binding {
    number: u32,
    value: Value,
    before: Option<usize>,
}

/// The variables of a script with their values, each found by its number without walking the others. Contracts see the
/// list of bindings, the latest first.
#[derive(Drop)]
pub struct Variables {
    // in order of binding
    bindings: Vec<Binding>,
    // the place of each variable's latest binding
    places: Places,
}

impl Model for Variables {
    ghost use Rattle.std.specs.Prelude.{reverse};
    ghost use Rattle.std.specs.Coded.{coded×, coded_list, coded_ℕ};
    ghost use Rattle.rb_trees.specs.contracts.values.Value as value_code;
    ghost use Rattle.rb_meaning_code.specs.ScriptRun.{Vars};
    ghost use Rattle.rb_exec.specs.Bindings.{Guides, as_variables};
    ghost use Rattle.rb_exec.specs.Places.{place_at};

    ghost Value = { Vars };

    ghost coded = { coded_list (coded× coded_ℕ value_code.the_row.coded) };

    ghost view = { λ v. as_variables (reverse v.bindings.items) };

    ghost invariant = { λ v. Guides (place_at v.places) (reverse v.bindings.items) };
}

impl Variables {
    /// No variables.
    pub fn new(alloc: Global) -> Variables
        ensures { result ≡ [] }
    {
        Variables {
            bindings: Vec::new(alloc),
            places: Places::new(alloc),
        }
    }

    /// How many bindings there are.
    pub fn count(&self) -> usize
        ensures { result ≡ length self.now }
    {
        self.bindings.len()
    }

    /// The latest value of a variable: `latest`.
    #[tactic(auto, using(crate::proofs::Guided::finds))]
    pub fn find(&self, number: u32) -> Option<&Value>
        ensures { option_copied result ≡ latest self.now number }
    {
        match self.places.find(number) {
            Some(place) => value_at(self.bindings.as_slice(), place),
            None => None,
        }
    }

    /// Binds a variable to a value. After an error nothing changed.
    #[inline(always)]
    pub fn bind(&mut self, number: u32, value: Value) -> Result<(), Memory>
        ensures bound { OnOk result (self.new ≡ (number, value) ∷ self.old) }
        ensures kept { OnErr result (self.new ≡ self.old) }
    {
        let before = self.places.find(number);
        let place = self.bindings.len();
        self.bindings.push(Binding {
            number,
            value,
            before,
        })?;
        match self.places.set(number, Some(place)) {
            Ok(()) => Ok(()),
            Err(_) => {
                self.bindings.truncate(place);
                Err(Memory)
            }
        }
    }

    /// Lets the later bindings go, so that the oldest so many stay: `oldest`.
    #[tactic(auto, using(crate::proofs::Guided::closings))]
    #[inline(always)]
    pub fn close(&mut self, count: usize) -> Result<(), Memory>
        ensures { OnOk result (self.new ≡ oldest count self.old) }
    {
        'later: while self.bindings.len() > count {
            self.forget()?;
        }
        Ok(())
    }

    // Lets the latest binding go, so that its variable has the value of before. After an error nothing changed.
    #[inline(always)]
    fn forget(&mut self) -> Result<(), Memory>
        ensures { OnOk result (self.new ≡ without_latest self.old) }
    {
        if let Some((number, before)) = latest_of(self.bindings.as_slice()) {
            self.places.set(number, before)?;
            drop_last(&mut self.bindings);
        }
        Ok(())
    }
}

// The value of the binding at a place.
fn value_at(bindings: &[Binding], place: usize) -> Option<&Value>
    ensures { option_copied result ≡ option_map (λ b. b.value) (slice_get bindings.now place) }
{
    match bindings.get(place) {
        Some(binding) => Some(&binding.value),
        None => None,
    }
}

// Lets the last binding go.
fn drop_last(bindings: &mut Vec<Binding>)
    ensures { bindings.new.items ≡ take (vec_len bindings.old - 1) bindings.old.items }
{
    let _last = bindings.pop();
}

// The variable of the last binding, and the place of its binding before.
fn latest_of(bindings: &[Binding]) -> Option<(u32, Option<usize>)>
    ensures { result ≡ latest_binding (reverse bindings.now) }
{
    match bindings.last() {
        Some(binding) => Some((binding.number, binding.before)),
        None => None,
    }
}
