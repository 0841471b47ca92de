// The parts of a remainder that hold no parts.

ghost use Rattle.std.specs.Prelude.{◌≡◌, true};
ghost use Rattle.rb_engine.specs.Locals.{local};
ghost use Rattle.rb_trees.specs.mirror.Remainders.{mirror_part};
ghost use Rattle.rb_client.specs.Walks.{Performs, bind_meant, both_meant, is_piece, part_meant, pass_meant, plain_meant};

use crate::early::{Early, early_of};
use crate::faults::{far_fault, own_fault};
use crate::replay_world::ReplayWorld;
use rb_base::Sink;
use rb_code::Code;
use rb_engine::{Frame, State, eval_early, exec_early};
use rb_trees::{Expr, Part, Stmt, Word};
use std::alloc::Global;
use std::slice;

/// A value that both sides evaluate: its step, the name that it is bound to, and what is evaluated.
#[derive(Clone, Copy)]
pub struct Twin<'a> {
    pub step: u32,
    pub name: &'a Word,
    pub value: &'a Expr,
}

impl<'a> Twin<'a> {
    // What is evaluated at a step, and bound to a name.
    fn new(step: u32, name: &'a Word, value: &'a Expr) -> Twin<'a>
        ensures { result ≡ record { step = step; name = name.exit; value = value.exit } }
    {
        Twin { step, name, value }
    }
}

// A statement.
#[inline(always)]
fn perform_plain<W: Sink>(
    alloc: Global,
    code: &Code,
    state: &mut State,
    frame: &mut Frame,
    world: &mut ReplayWorld<'_, '_, W>,
    stmt: &Stmt,
) -> Result<(), Early>
    ensures { let meant = plain_meant code.now stmt.now in
        Performs W.Sink meant (local frame.old state.old) world.old result (local frame.new state.new) world.new }
{
    let body = slice::from_ref(stmt);
    early_of(exec_early(alloc, code, state, frame, world, body))
}

/// The place of a step that gives no entry.
#[inline(never)]
pub fn perform_pass<W: Sink>(
    alloc: Global,
    state: &State,
    frame: &Frame,
    world: &ReplayWorld<'_, '_, W>,
    step: u32,
) -> Result<(), Early>
    ensures { let meant = pass_meant step in
        Performs W.Sink meant (local frame.now state.now) world.now result (local frame.now state.now) world.now }
{
    match world.fault_at(step) {
        Some(fault) => Err(Early::Raised(far_fault(alloc, &fault)?)),
        None => Ok(()),
    }
}

/// A value that was kept, and is bound.
#[inline(always)]
pub fn perform_bind<W: Sink>(
    alloc: Global,
    state: &State,
    frame: &mut Frame,
    world: &mut ReplayWorld<'_, '_, W>,
    step: u32,
    name: &Word,
) -> Result<(), Early>
    ensures { let meant = bind_meant step name.now in
        Performs W.Sink meant (local frame.old state.now) world.old result (local frame.new state.now) world.new }
{
    let value = world.take(step)?;
    frame.bind(alloc, name.as_slice(), value)?;
    Ok(())
}

// A value that both sides evaluate.
#[inline(never)]
fn perform_both<W: Sink>(
    alloc: Global,
    code: &Code,
    state: &mut State,
    frame: &mut Frame,
    world: &mut ReplayWorld<'_, '_, W>,
    twin: &Twin<'_>,
) -> Result<(), Early>
    ensures { let meant = both_meant code.now twin.now.step twin.now.name.now twin.now.value.now in
        Performs W.Sink meant (local frame.old state.old) world.old result (local frame.new state.new) world.new }
{
    if let Some(fault) = world.fault_at(twin.step) {
        return Err(Early::Raised(own_fault(alloc, &fault)?));
    }
    let evaluated = eval_early(alloc, code, state, frame, world, twin.value);
    let value = early_of(evaluated)?;
    frame.bind(alloc, twin.name.as_slice(), value)?;
    Ok(())
}

/// A part that holds no parts.
#[inline(always)]
pub fn perform_piece<W: Sink>(
    alloc: Global,
    code: &Code,
    state: &mut State,
    frame: &mut Frame,
    world: &mut ReplayWorld<'_, '_, W>,
    part: &Part,
) -> Result<(), Early>
    requires { is_piece (mirror_part part.now) ≡ true }
    ensures { let meant = part_meant code.now part.now in
        Performs W.Sink meant (local frame.old state.old) world.old result (local frame.new state.new) world.new }
{
    match part {
        Part::Plain(stmt, _) => perform_plain(alloc, code, state, frame, world, stmt),
        Part::Pass(step) => perform_pass(alloc, state, frame, world, *step),
        Part::Bind { step, name, .. } => perform_bind(alloc, state, frame, world, *step, name),
        Part::Both {
            step,
            name,
            value,
            ..
        } => {
            let twin = Twin::new(*step, name, value);
            perform_both(alloc, code, state, frame, world, &twin)
        }
        _ => unreachable!(),
    }
}
