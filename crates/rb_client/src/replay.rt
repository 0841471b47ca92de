// Performs the remainder of a batch on the node that its script gave.

ghost use Rattle.std.specs.Prelude.{◌≡◌, cond};
ghost use Rattle.rb_meaning_bytes.specs.Fits as meaning;
ghost use Rattle.rb_engine.specs.Locals.{local};
ghost use Rattle.rb_wire_forest.specs.Opened.{root_of};
ghost use Rattle.rb_client.specs.Replays.{Replays, remainder_meant};
ghost use Rattle.rb_client.specs.Walks.{Encloses, Performs, PerformsTurns, all_meant, branch_meant, part_meant, rows_meant, rows_turned, turn_meant};
ghost use Rattle.rb_client.specs.Lists.{PerformsItems, item_meant, list_meant, list_turned};

use crate::early::Early;
use crate::lists::{ListLoop, items_of, perform_lack, spend, split_items};
use crate::pieces::{perform_bind, perform_pass, perform_piece};
use crate::replay_world::ReplayWorld;
use rb_base::Sink;
use rb_code::Code;
use rb_engine::{Frame, State};
use rb_trees::{Item, Part, Seq, Value, Word, copy_value};
use rb_wire_forest::Forest;
use std::alloc::Global;

/// A loop over rows, without its nodes: its step, the name of its rows, whether they are kept, and what is performed in a turn.
#[derive(Clone, Copy)]
pub struct Loop<'a> {
    pub step: u32,
    pub name: &'a Word,
    pub kept: bool,
    pub body: &'a [Part],
}

impl<'a> Loop<'a> {
    // A loop over rows of a kind.
    fn new(step: u32, name: &'a Word, kind: u8, body: &'a [Part]) -> Loop<'a>
        ensures { result ≡ record { step = step; name = name.exit; kept = meaning.is_kept kind; body = body.exit } }
    {
        Loop {
            step,
            name,
            kept: is_kept(kind),
            body,
        }
    }
}

/// An `if` that the script decides: its step, and what is performed in its branches.
#[derive(Clone, Copy)]
pub struct Choice<'a> {
    pub step: u32,
    pub yes: &'a Seq<Part>,
    pub no: &'a Seq<Part>,
}

impl<'a> Choice<'a> {
    // The branches of a step.
    fn new(step: u32, yes: &'a Seq<Part>, no: &'a Seq<Part>) -> Choice<'a>
        ensures { result ≡ record { step = step; yes = yes.exit; no = no.exit } }
    {
        Choice { step, yes, no }
    }
}

// Whether rows of a kind are kept: `is_kept`.
fn is_kept(kind: u8) -> bool
    ensures { result ≡ meaning.is_kept kind }
{
    kind >= Item::Int.number() && kind <= Item::Text.number()
}

// The parts of the branch that was taken.
fn chosen<'a>(holds: bool, yes: &'a Seq<Part>, no: &'a Seq<Part>) -> &'a Seq<Part>
    ensures { result.now ≡ cond holds yes.now no.now }
{
    if holds { yes } else { no }
}

// A part.
#[cycle(parts)]
#[inline(always)]
fn perform_part<W: Sink>(
    alloc: Global,
    code: &Code,
    state: &mut State,
    frame: &mut Frame,
    world: &mut ReplayWorld<'_, '_, W>,
    part: &Part,
) -> Result<(), Early>
    ensures { let meant = part_meant code.now part.now in
        Performs W.Sink meant (local frame.old state.old) world.old result (local frame.new state.new) world.new }
{
    match part {
        Part::Branch { step, yes, no } => {
            let choice = Choice::new(*step, yes, no);
            perform_branch(alloc, code, state, frame, world, &choice)
        }
        Part::Turns {
            step,
            name,
            kind,
            body,
        } => {
            let turns = Loop::new(*step, name, *kind, body.as_slice());
            perform_rows(alloc, code, state, frame, world, &turns)
        }
        Part::Over {
            step,
            at,
            name,
            list,
            body,
            ..
        } => {
            let turns = ListLoop::new(*step, *at, name, list, body.as_slice());
            perform_list(alloc, code, state, frame, world, &turns)
        }
        _ => perform_piece(alloc, code, state, frame, world, part),
    }
}

/// Performs parts in order: `replay_all`.
#[cycle(parts)]
#[inline(never)]
pub fn perform_all<W: Sink>(
    alloc: Global,
    code: &Code,
    state: &mut State,
    frame: &mut Frame,
    world: &mut ReplayWorld<'_, '_, W>,
    parts: &[Part],
) -> Result<(), Early>
    ensures { let meant = all_meant code.now parts.now in
        Performs W.Sink meant (local frame.old state.old) world.old result (local frame.new state.new) world.new }
{
    'parts: for part in parts {
        perform_part(alloc, code, state, frame, world, part)?;
    }
    Ok(())
}

// The parts of a block on the innermost node, at whose end its names go and the node is closed, by a fault too.
#[cycle(parts)]
#[inline(always)]
fn perform_block<W: Sink>(
    alloc: Global,
    code: &Code,
    state: &mut State,
    frame: &mut Frame,
    world: &mut ReplayWorld<'_, '_, W>,
    parts: &[Part],
) -> Result<(), Early>
    ensures { let meant = all_meant code.now parts.now in
        Encloses W.Sink meant (local frame.old state.old) world.old result (local frame.new state.new) world.new }
{
    let count = frame.len();
    let ended = perform_all(alloc, code, state, frame, world, parts);
    frame.truncate(count);
    world.left.close();
    ended
}

// The branch that the script took.
#[cycle(parts)]
#[inline(always)]
fn perform_branch<W: Sink>(
    alloc: Global,
    code: &Code,
    state: &mut State,
    frame: &mut Frame,
    world: &mut ReplayWorld<'_, '_, W>,
    choice: &Choice<'_>,
) -> Result<(), Early>
    ensures { let meant = branch_meant code.now choice.now.step choice.now.yes.now choice.now.no.now in
        Performs W.Sink meant (local frame.old state.old) world.old result (local frame.new state.new) world.new }
{
    let Some(holds) = world.left.branch() else {
        return Err(Early::Raised(world.missed(choice.step)?));
    };
    let parts = chosen(holds, choice.yes, choice.no);
    perform_block(alloc, code, state, frame, world, parts.as_slice())
}

// A loop over rows: its turns, and then the node's fault may be at its step.
#[cycle(parts)]
#[inline(never)]
fn perform_rows<W: Sink>(
    alloc: Global,
    code: &Code,
    state: &mut State,
    frame: &mut Frame,
    world: &mut ReplayWorld<'_, '_, W>,
    turns: &Loop<'_>,
) -> Result<(), Early>
    ensures { let meant = rows_meant code.now turns.now in
        Performs W.Sink meant (local frame.old state.old) world.old result (local frame.new state.new) world.new }
{
    turn_rows(alloc, code, state, frame, world, turns)?;
    perform_pass(alloc, state, frame, world, turns.step)
}

// The turns over the rows that stand first, at whose end the rows are closed, by a fault too.
#[cycle(parts)]
#[inline(never)]
fn turn_rows<W: Sink>(
    alloc: Global,
    code: &Code,
    state: &mut State,
    frame: &mut Frame,
    world: &mut ReplayWorld<'_, '_, W>,
    turns: &Loop<'_>,
) -> Result<(), Early>
    ensures { let meant = rows_turned code.now turns.now in
        Performs W.Sink meant (local frame.old state.old) world.old result (local frame.new state.new) world.new }
{
    let Some(count) = world.left.rows() else {
        return Err(Early::Raised(world.missed(turns.step)?));
    };
    let ended = perform_turns(alloc, code, state, frame, world, turns, count);
    world.left.close();
    ended
}

// So many turns over rows that are open, each on the next of their nodes.
#[cycle(parts)]
#[inline(always)]
fn perform_turns<W: Sink>(
    alloc: Global,
    code: &Code,
    state: &mut State,
    frame: &mut Frame,
    world: &mut ReplayWorld<'_, '_, W>,
    turns: &Loop<'_>,
    count: u32,
) -> Result<(), Early>
    ensures { let before = local frame.old state.old in
        PerformsTurns W.Sink code.now turns.now count before world.old result (local frame.new state.new) world.new }
{
    'nodes: for _ in 0..count {
        world.left.turn();
        perform_turn(alloc, code, state, frame, world, turns)?;
    }
    Ok(())
}

// A turn on the innermost node, at whose end its names go and the node is closed, by a fault too.
#[cycle(parts)]
#[inline(always)]
fn perform_turn<W: Sink>(
    alloc: Global,
    code: &Code,
    state: &mut State,
    frame: &mut Frame,
    world: &mut ReplayWorld<'_, '_, W>,
    turns: &Loop<'_>,
) -> Result<(), Early>
    ensures { let meant = turn_meant code.now turns.now in
        Encloses W.Sink meant (local frame.old state.old) world.old result (local frame.new state.new) world.new }
{
    let count = frame.len();
    let ended = perform_row(alloc, code, state, frame, world, turns);
    frame.truncate(count);
    world.left.close();
    ended
}

// What is performed in a turn, which begins with its row where rows are kept.
#[cycle(parts)]
#[inline(always)]
fn perform_row<W: Sink>(
    alloc: Global,
    code: &Code,
    state: &mut State,
    frame: &mut Frame,
    world: &mut ReplayWorld<'_, '_, W>,
    turns: &Loop<'_>,
) -> Result<(), Early>
    ensures { let meant = turn_meant code.now turns.now in
        Performs W.Sink meant (local frame.old state.old) world.old result (local frame.new state.new) world.new }
{
    if turns.kept {
        perform_bind(alloc, state, frame, world, turns.step, turns.name)?;
        return perform_all(alloc, code, state, frame, world, turns.body);
    }
    perform_all(alloc, code, state, frame, world, turns.body)
}

// A loop over the list that has a name, whose items are shared.
#[cycle(parts)]
#[inline(never)]
fn perform_list<W: Sink>(
    alloc: Global,
    code: &Code,
    state: &mut State,
    frame: &mut Frame,
    world: &mut ReplayWorld<'_, '_, W>,
    turns: &ListLoop<'_>,
) -> Result<(), Early>
    ensures { let meant = list_meant code.now turns.now in
        Performs W.Sink meant (local frame.old state.old) world.old result (local frame.new state.new) world.new }
{
    let items = items_of(alloc, frame, turns.list, turns.at)?;
    turn_list(
        alloc,
        code,
        state,
        frame,
        world,
        turns,
        items.get().as_slice(),
    )
}

// The turns over items on the rows that stand first, at whose end the rows are closed, by a fault too. Then come the items
// that no node is left for.
#[cycle(parts)]
#[inline(never)]
fn turn_list<W: Sink>(
    alloc: Global,
    code: &Code,
    state: &mut State,
    frame: &mut Frame,
    world: &mut ReplayWorld<'_, '_, W>,
    turns: &ListLoop<'_>,
    items: &[Value],
) -> Result<(), Early>
    ensures { let meant = list_turned code.now turns.now items.now in
        Performs W.Sink meant (local frame.old state.old) world.old result (local frame.new state.new) world.new }
{
    let Some(count) = world.left.rows() else {
        return Err(Early::Raised(world.missed(turns.step)?));
    };
    let (given, lacking) = split_items(items, count);
    let ended = perform_items(alloc, code, state, frame, world, turns, given);
    world.left.close();
    ended?;
    perform_lack(alloc, state, frame, world, turns, lacking)
}

// The turns over items on rows that are open, each on the next of their nodes.
#[cycle(parts)]
#[inline(never)]
fn perform_items<W: Sink>(
    alloc: Global,
    code: &Code,
    state: &mut State,
    frame: &mut Frame,
    world: &mut ReplayWorld<'_, '_, W>,
    turns: &ListLoop<'_>,
    items: &[Value],
) -> Result<(), Early>
    ensures { let before = local frame.old state.old in
        PerformsItems W.Sink code.now turns.now items.now before world.old result (local frame.new state.new) world.new }
{
    'items: for item in items {
        spend(alloc, state, turns.at)?;
        world.left.turn();
        perform_item(alloc, code, state, frame, world, turns, item)?;
    }
    Ok(())
}

// A turn over an item on the innermost node, at whose end its names go and the node is closed, by a fault too.
#[cycle(parts)]
#[inline(never)]
fn perform_item<W: Sink>(
    alloc: Global,
    code: &Code,
    state: &mut State,
    frame: &mut Frame,
    world: &mut ReplayWorld<'_, '_, W>,
    turns: &ListLoop<'_>,
    item: &Value,
) -> Result<(), Early>
    ensures { let meant = item_meant code.now turns.now item.now in
        Encloses W.Sink meant (local frame.old state.old) world.old result (local frame.new state.new) world.new }
{
    let count = frame.len();
    let ended = perform_named(alloc, code, state, frame, world, turns, item);
    frame.truncate(count);
    world.left.close();
    ended
}

// What is performed in a turn over an item, which is bound to its name first.
#[cycle(parts)]
#[inline(never)]
fn perform_named<W: Sink>(
    alloc: Global,
    code: &Code,
    state: &mut State,
    frame: &mut Frame,
    world: &mut ReplayWorld<'_, '_, W>,
    turns: &ListLoop<'_>,
    item: &Value,
) -> Result<(), Early>
    ensures { let meant = item_meant code.now turns.now item.now in
        Performs W.Sink meant (local frame.old state.old) world.old result (local frame.new state.new) world.new }
{
    let value = copy_value(item)?;
    frame.bind(alloc, turns.name.as_slice(), value)?;
    perform_all(alloc, code, state, frame, world, turns.body)
}

/// Performs a remainder on the node that its script gave, the root of a forest: `replay_all`, to its end. Its names go then, by
/// a fault too. The node is walked where it stands, and takes no memory.
///
/// The node needn't fit the remainder: where it lacks what a part reads, and its fault isn't there, the fault is Kind.
#[inline(never)]
pub fn perform_remainder<W: Sink>(
    alloc: Global,
    code: &Code,
    state: &mut State,
    frame: &mut Frame,
    forest: &Forest<'_>,
    remainder: &Seq<Part>,
    out: &mut W,
) -> Result<(), Early>
    ensures { let meant = remainder_meant code.now remainder.now (root_of forest.now) in
        Replays W.Sink meant (local frame.old state.old) out.old result (local frame.new state.new) out.new }
{
    let count = frame.len();
    let mut world = ReplayWorld::over(alloc, forest, out);
    let ended = perform_all(alloc, code, state, frame, &mut world, remainder.as_slice());
    let ReplayWorld {
        alloc: _,
        left: _left,
        out: _out,
    } = world;
    frame.truncate(count);
    ended
}
