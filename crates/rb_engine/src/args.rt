// The values that a method of the own side is called with, where its frame will have them.

ghost use Rattle.std.specs.Prelude.{◌≡◌, [], ◌∷◌, ◌++◌, length, map, slice_set, IfOk, OnOk};
ghost use Rattle.rb_trees.specs.mirror.Declarations.{mirror_param};
ghost use Rattle.rb_meaning_code.specs.Calls.{names_within};
ghost use Rattle.rb_engine.specs.Ends.{UnlessMemory};
ghost use Rattle.rb_engine.specs.Slots.{renamed};

use crate::ends::End;
use crate::frame::Frame;
use crate::name::Name;
use rb_trees::{Memory, Param, Seq, Value, copy_value};
use std::alloc::Global;
use std::marker::Model;

// Room for `this`, and for the names that a method's body may bind before its frame takes more memory.
const ROOM_BESIDE: usize = 5;

/// The values that a method is called with, in order. Contracts see their list.
#[derive(Drop)]
pub struct Args {
    // the place of `this`, and after it the values, which have no names yet
    slots: Seq<(Name, Value)>,
}

impl Model for Args {
    ghost use Rattle.std.specs.Prelude.{◌<◌, List, length};
    ghost use Rattle.std.specs.Coded.{coded_list};
    ghost use Rattle.rb_trees.specs.declared.values.Value.{Value as TheValue};
    ghost use Rattle.rb_trees.specs.contracts.values.Value as value_code;
    ghost use Rattle.rb_engine.specs.Slots.{values_after};

    ghost Value = { List TheValue };

    ghost coded = { coded_list value_code.the_row.coded };

    ghost view = { λ args. values_after args.slots };

    ghost invariant = { λ args. 0 < length args.slots };
}

// Gives slots the names of parameters, in order, as long as both last.
#[tactic(auto, using(crate::proofs::Slotted::names))]
fn name_slots(alloc: Global, slots: &mut Seq<(Name, Value)>, params: &[Param]) -> Result<(), Memory>
    ensures { OnOk result (slots.new ≡ renamed (map mirror_param params.now) slots.old) }
{
    for (place, param) in params.iter().enumerate() {
        match slots.get_mut(place + 1) {
            Some(slot) => {
                slot.0 = Name::of(alloc, param.name.as_slice())?;
            }
            None => return Ok(()),
        }
    }
    Ok(())
}

// Gives the first slot its name and value.
fn set_first(slots: &mut Seq<(Name, Value)>, named: (Name, Value))
    ensures { slots.new ≡ slice_set slots.old 0 named }
{
    if let Some(slot) = slots.get_mut(0) {
        *slot = named;
    }
}

impl Args {
    /// No values, with room for so many.
    #[tactic(auto, using(crate::proofs::Slotted::values))]
    pub fn with_room(alloc: Global, count: usize) -> Result<Args, Memory>
        ensures { IfOk result (λ args. args ≡ []) }
    {
        let mut slots = Seq::from_vec(Vec::with_capacity(
            alloc,
            count.saturating_add(ROOM_BESIDE),
        )?);
        slots.push((Name::blank(alloc), Value::Unit))?;
        Ok(Args { slots })
    }

    /// The values of a list, which are moved.
    pub fn of(alloc: Global, values: Seq<Value>) -> Result<Args, Memory>
        ensures { IfOk result (λ args. args ≡ values) }
    {
        let mut args = Args::with_room(alloc, values.len())?;
        for value in values.into_vec() {
            args.push(alloc, value)?;
        }
        Ok(args)
    }

    /// Adds a value at the end.
    #[inline]
    #[tactic(auto, using(crate::proofs::Slotted::values))]
    pub fn push(&mut self, alloc: Global, value: Value) -> Result<(), Memory>
        ensures { OnOk result (self.new ≡ self.old ++ value ∷ []) }
    {
        self.slots.push((Name::blank(alloc), value))
    }

    /// How many there are.
    #[inline]
    #[tactic(auto, using(crate::proofs::Slotted::values))]
    pub fn len(&self) -> usize
        ensures { result ≡ length self.now }
    {
        self.slots.len() - 1
    }

    /// The frame of a method that is called with these values: `names_within`.
    #[tactic(auto, using(crate::proofs::Slotted::values))]
    pub fn into_frame(
        self,
        alloc: Global,
        receiver: &Value,
        params: &[Param],
    ) -> Result<Frame, Memory>
        ensures { IfOk result (λ frame. frame ≡ names_within receiver.now (map mirror_param params.now) self) }
    {
        let Args { mut slots } = self;
        let this = (Name::of(alloc, b"this")?, copy_value(receiver)?);
        name_slots(alloc, &mut slots, params)?;
        set_first(&mut slots, this);
        slots.truncate(params.len() + 1);
        Ok(Frame::of(slots))
    }
}

/// No arguments, with room for so many.
pub fn room_for<X>(alloc: Global, count: usize) -> Result<Args, End<X>>
    ensures { UnlessMemory result (λ args. args ≡ []) }
{
    match Args::with_room(alloc, count) {
        Ok(args) => Ok(args),
        Err(_) => Err(End::NoMemory),
    }
}

/// Adds an argument at the end.
#[inline]
pub fn add_arg<X>(alloc: Global, args: &mut Args, value: Value) -> Result<(), End<X>>
    ensures { UnlessMemory result (λ u. args.new ≡ args.old ++ value ∷ []) }
{
    match args.push(alloc, value) {
        Ok(()) => Ok(()),
        Err(_) => Err(End::NoMemory),
    }
}
