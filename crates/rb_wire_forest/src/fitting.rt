// Whether a node fits a remainder.

ghost use Rattle.std.specs.Prelude.{◌≡◌};
ghost use Rattle.rb_trees.specs.Outcome.{Gives};
ghost use Rattle.rb_trees.specs.mirror.Forests.{mirror_node};
ghost use Rattle.rb_trees.specs.mirror.Remainders.{mirror_part, mirror_parts};
ghost use Rattle.rb_meaning_bytes.specs.Fits as meaning;
ghost use Rattle.rb_wire_forest.specs.Walks.{seen, step_told, branch_walked, turns_walked, list_walked};
ghost use Rattle.rb_wire_forest.specs.Misfits.{nothing, unfit};

use crate::turns::{is_counted, length_of};
use crate::walk::{
    Walk, begin, behind, faults_at, first_branch, first_rows, go, leaves, miss, pass, read_row,
    read_value, read_values,
};
use rb_trees::{Entry, Node, Part, Seq};

/// Why a node doesn't fit a remainder.
#[derive(Clone, Copy, Debug, thiserror::Error)]
pub enum Misfit {
    /// The first step that doesn't find what it demands.
    #[error("misfit at step {0}")]
    At(u32),
    /// Every step fits, and something is left over.
    #[error("something left over")]
    Extra,
}

/// The kind of what is no row.
pub(crate) const NO_KIND: u8 = 0;

/// The walk behind a part, or the step that doesn't fit.
#[cycle(parts)]
#[tactic(auto, using(crate::proofs::Walked::parts))]
fn read_part<'a>(part: &Part, walk: &Walk<'a>, lengths: &[u32]) -> Result<Walk<'a>, u32>
    ensures { Gives seen step_told result (meaning.part_read lengths.now (mirror_part part.now) (seen walk.now)) }
{
    match part {
        Part::Plain(_, takes) => read_values(walk, takes.as_slice()),
        Part::Pass(step) => Ok(pass(walk, *step)),
        Part::Bind { step, kind, .. } => read_value(walk, *step, *kind),
        Part::Both { step, .. } => Ok(pass(walk, *step)),
        Part::Branch { step, yes, no } => match first_branch(walk.left) {
            Some((true, node, rest)) => read_node(yes.as_slice(), node, rest, walk, lengths),
            Some((false, node, rest)) => read_node(no.as_slice(), node, rest, walk, lengths),
            None => miss(walk, *step),
        },
        Part::Turns {
            step,
            kind,
            body,
            ..
        } => match first_rows(walk.left) {
            Some((turns, rest)) => {
                let from = go(walk, rest);
                read_turns(body.as_slice(), *step, *kind, turns, &from, lengths)
            }
            None => miss(walk, *step),
        },
        Part::Over {
            step,
            input,
            body,
            ..
        } => match first_rows(walk.left) {
            Some((turns, rest)) => {
                let from = go(walk, rest);
                let items = length_of(lengths, *input);
                read_list(body.as_slice(), *step, items, turns, &from, lengths)
            }
            None => miss(walk, *step),
        },
    }
}

/// The walk behind parts in order, up to a fault.
#[cycle(parts)]
fn read_parts<'a>(parts: &[Part], from: &Walk<'a>, lengths: &[u32]) -> Result<Walk<'a>, u32>
    ensures { Gives seen step_told result (meaning.parts_read lengths.now (mirror_parts parts.now) (seen from.now)) }
{
    let mut walk = *from;
    for part in parts {
        if walk.stopped {
            return Ok(walk);
        }
        walk = read_part(part, &walk, lengths)?;
    }
    Ok(walk)
}

/// The walk behind a branch with this node, in which the parts are read, and with these entries after it.
#[cycle(parts)]
fn read_node<'a>(
    parts: &[Part],
    node: &'a Node,
    rest: &'a [Entry],
    walk: &Walk<'a>,
    lengths: &[u32],
) -> Result<Walk<'a>, u32>
    ensures { Gives seen step_told result (branch_walked lengths.now parts.now node.now rest.now (seen walk.now)) }
{
    let inner = read_parts(parts, &begin(node, walk.spare), lengths)?;
    Ok(behind(walk, rest, &inner))
}

/// The walk behind a loop with this body and these turns. A turn behind a fault is left over.
#[cycle(parts)]
fn read_turns<'a>(
    body: &[Part],
    step: u32,
    kind: u8,
    turns: &'a [Node],
    from: &Walk<'a>,
    lengths: &[u32],
) -> Result<Walk<'a>, u32>
    ensures { Gives seen step_told result (turns_walked lengths.now step kind body.now turns.now (seen from.now)) }
{
    let mut walk = *from;
    for turn in turns {
        if walk.stopped {
            return Ok(spare(&walk));
        }
        let row = read_row(&begin(turn, walk.spare), step, kind)?;
        let inner = read_parts(body, &row, lengths)?;
        walk = behind(&walk, walk.left, &inner);
    }
    Ok(end_turns(&walk, step))
}

/// The walk behind a loop over a list of so many items, with this body and these turns.
#[cycle(parts)]
fn read_list<'a>(
    body: &[Part],
    step: u32,
    items: u32,
    turns: &'a [Node],
    from: &Walk<'a>,
    lengths: &[u32],
) -> Result<Walk<'a>, u32>
    ensures { Gives seen step_told result (list_walked lengths.now step items body.now turns.now (seen from.now)) }
{
    if is_counted(items, turns, faults_at(from, step)) {
        read_turns(body, step, NO_KIND, turns, from, lengths)
    } else {
        Err(step)
    }
}

/// The walk where something is left over.
fn spare<'a>(walk: &Walk<'a>) -> Walk<'a>
    ensures { seen result ≡ meaning.with_spare (seen walk.now) }
{
    Walk {
        left: walk.left,
        fault: walk.fault,
        stopped: walk.stopped,
        spare: true,
    }
}

/// The walk behind a loop, whose turns ended so: the node's fault may be at its step.
fn end_turns<'a>(walk: &Walk<'a>, step: u32) -> Walk<'a>
    ensures { Ok (seen result) ≡ meaning.turns_done step (seen walk.now) }
{
    if walk.stopped {
        *walk
    } else {
        pass(walk, step)
    }
}

/// Whether a node fits a remainder: whether replay will find in it what each step demands, or a fault
/// in its place, and nothing besides; and whether it has as many turns over a list as that has items, of which `lengths` tells
/// by the input's number. It takes no memory.
#[tactic(auto, unfolding(rb_meaning_bytes::specs::Fits::fits))]
pub fn fits(node: &Node, remainder: &Seq<Part>, lengths: &[u32]) -> Result<(), Misfit>
    ensures { Gives nothing unfit result (meaning.fits (mirror_node node.now) (mirror_parts remainder.now) lengths.now) }
{
    match read_parts(remainder.as_slice(), &begin(node, false), lengths) {
        Ok(walk) => {
            if leaves(&walk) {
                Err(Misfit::Extra)
            } else {
                Ok(())
            }
        }
        Err(step) => Err(Misfit::At(step)),
    }
}
