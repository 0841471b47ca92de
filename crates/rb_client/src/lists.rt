// What a part that goes through a list takes: its items, a unit of fuel for each, and what comes where nodes are lacking.

ghost use Rattle.std.specs.Prelude.{◌≡◌, take, drop};
ghost use Rattle.rb_trees.specs.Named.{lookup};
ghost use Rattle.rb_trees.specs.declared.values.Value.{out-Value};
ghost use Rattle.rb_meaning_code.specs.ScriptRun as run;
ghost use Rattle.rb_meaning.specs.ConstantLists as meant;
ghost use Rattle.rb_engine.specs.Locals.{local};
ghost use Rattle.rb_client.specs.Lists.{GivesItems, Spends, lack_meant};
ghost use Rattle.rb_client.specs.Walks.{Performs};

use crate::early::{Early, raise};
use crate::faults::{fuel_used, refuse};
use crate::replay_world::ReplayWorld;
use rb_base::Sink;
use rb_engine::{Frame, State};
use rb_trees::{Part, Seq, Shared, Value, Word};
use std::alloc::Global;

/// A loop over a list: its step and its position, the name of its items, the name of the list, and what is performed in a
/// turn.
#[derive(Clone, Copy)]
pub struct ListLoop<'a> {
    pub step: u32,
    pub at: u32,
    pub name: &'a Word,
    pub list: &'a Word,
    pub body: &'a [Part],
}

impl<'a> ListLoop<'a> {
    /// A loop at a step and a position over the list of a name.
    pub fn new(step: u32, at: u32, name: &'a Word, list: &'a Word, body: &'a [Part]) -> ListLoop<'a>
        ensures { result ≡ record { step = step; at = at; name = name.exit; list = list.exit; body = body.exit } }
    {
        ListLoop {
            step,
            at,
            name,
            list,
            body,
        }
    }
}

// The items of a value that is a list.
#[tactic(auto, using(rb_engine::proofs::Values::values))]
fn items_in(alloc: Global, value: &Value, at: u32) -> Result<Shared<Seq<Value>>, Early>
    ensures { GivesItems at (run.items_in (out-Value value.now)) result }
{
    match value {
        Value::List(items) => Ok(items.share()?),
        _ => Err(raise(alloc, refuse(alloc, at))),
    }
}

/// The items of the list that has a name; they are shared. Where there is no such list, Kind is raised at a position.
pub fn items_of(
    alloc: Global,
    frame: &Frame,
    list: &Word,
    at: u32,
) -> Result<Shared<Seq<Value>>, Early>
    ensures { GivesItems at (meant.items_of (lookup frame.now list.now)) result }
{
    match frame.find(list) {
        Some(value) => items_in(alloc, value, at),
        None => Err(raise(alloc, refuse(alloc, at))),
    }
}

/// Spends a unit of the own side's fuel, which is due at a position.
pub fn spend(alloc: Global, state: &mut State, at: u32) -> Result<(), Early>
    ensures { Spends at state.old result state.new }
{
    if state.fuel == 0 {
        return Err(raise(alloc, fuel_used(alloc, at)));
    }
    state.fuel -= 1;
    Ok(())
}

/// The items that have one of so many nodes, and those that none is left for.
pub fn split_items(items: &[Value], count: u32) -> (&[Value], &[Value])
    ensures given { result.0.now ≡ take count items.now }
    ensures lacking { result.1.now ≡ drop count items.now }
{
    let count = items.len().min(count as usize);
    (&items[..count], &items[count..])
}

/// What comes of items that no node is left for: a unit of fuel is due, and then the fault at the step comes.
#[inline(never)]
pub fn perform_lack<W: Sink>(
    alloc: Global,
    state: &mut State,
    frame: &Frame,
    world: &ReplayWorld<'_, '_, W>,
    turns: &ListLoop<'_>,
    items: &[Value],
) -> Result<(), Early>
    ensures { let meant = lack_meant turns.now items.now in
        Performs W.Sink meant (local frame.now state.old) world.now result (local frame.now state.new) world.now }
{
    if items.is_empty() {
        return Ok(());
    }
    spend(alloc, state, turns.at)?;
    Err(Early::Raised(world.missed(turns.step)?))
}
