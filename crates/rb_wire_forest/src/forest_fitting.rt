// Whether a forest in its bytes fits a remainder.
//
// One function of the machine's stack stands for the parts of a node, and one for the turns of a loop. What stands between them
// is inlined, since where a walk stands would go through memory at each call.

ghost use Rattle.std.specs.Prelude.{◌≡◌, Ok};
ghost use Rattle.rb_trees.specs.Outcome.{Gives};
ghost use Rattle.rb_trees.specs.mirror.Remainders.{mirror_parts};
ghost use Rattle.rb_meaning_bytes.specs.Fits as meaning;
ghost use Rattle.rb_wire_forest.specs.ForestWalks.{walk_of, InNode, Spares, TellsCounted};
ghost use Rattle.rb_wire_forest.specs.ForestWalks.{ReadsPart, ReadsParts, ReadsNode, ReadsTurn, ReadsTurns, ReadsList};
ghost use Rattle.rb_wire_forest.specs.Misfits.{nothing, unfit};
ghost use Rattle.rb_wire_forest.specs.Opened.{root_of, opened};

use crate::cursor::Cursor;
use crate::fitting::{Misfit, NO_KIND};
use crate::forest::Forest;
use crate::forest_walk::{
    Progress, begin, faults_at, leaves, miss, pass, read_row, read_value, read_values,
};
use crate::turns::length_of;
use rb_trees::{Part, Seq};

/// The walk behind a part, or the step that doesn't fit.
#[cycle(forest_parts)]
#[inline(always)]
fn read_part(
    part: &Part,
    cursor: &mut Cursor<'_>,
    from: Progress,
    lengths: &[u32],
) -> Result<Progress, u32>
    ensures { ReadsPart lengths.now part.now (opened cursor.old) from result (opened cursor.new) }
{
    match part {
        Part::Plain(_, takes) => read_values(cursor, from, takes.as_slice()),
        Part::Pass(step) => Ok(pass(cursor, from, *step)),
        Part::Bind { step, kind, .. } => read_value(cursor, from, *step, *kind),
        Part::Both { step, .. } => Ok(pass(cursor, from, *step)),
        Part::Branch { step, yes, no } => match cursor.branch() {
            Some(true) => read_node(yes.as_slice(), cursor, begin(from.spare), from, lengths),
            Some(false) => read_node(no.as_slice(), cursor, begin(from.spare), from, lengths),
            None => miss(cursor, from, *step),
        },
        Part::Turns {
            step,
            kind,
            body,
            ..
        } => match cursor.rows() {
            Some(turns) => read_turns(body.as_slice(), *step, *kind, turns, cursor, from, lengths),
            None => miss(cursor, from, *step),
        },
        Part::Over {
            step,
            input,
            body,
            ..
        } => match cursor.rows() {
            Some(turns) => {
                let items = length_of(lengths, *input);
                read_list(body.as_slice(), *step, items, turns, cursor, from, lengths)
            }
            None => miss(cursor, from, *step),
        },
    }
}

/// The walk behind parts in order, up to a fault.
#[cycle(forest_parts)]
#[inline(never)]
fn read_parts(
    parts: &[Part],
    cursor: &mut Cursor<'_>,
    from: Progress,
    lengths: &[u32],
) -> Result<Progress, u32>
    ensures { ReadsParts lengths.now parts.now (opened cursor.old) from result (opened cursor.new) }
{
    let mut progress = from;
    for part in parts {
        if progress.stopped {
            return Ok(progress);
        }
        progress = read_part(part, cursor, progress, lengths)?;
    }
    Ok(progress)
}

/// The walk behind the innermost node, in which the parts are read. The node is closed.
#[cycle(forest_parts)]
#[inline(always)]
fn read_node(
    parts: &[Part],
    cursor: &mut Cursor<'_>,
    inner: Progress,
    outer: Progress,
    lengths: &[u32],
) -> Result<Progress, u32>
    ensures { ReadsNode lengths.now parts.now (opened cursor.old) inner outer result (opened cursor.new) }
{
    let end = read_parts(parts, cursor, inner, lengths)?;
    let spare = leaves(cursor, end);
    cursor.close();
    Ok(Progress {
        raised: outer.raised,
        stopped: end.stopped,
        spare,
    })
}

/// The walk behind the next turn of the innermost Rows.
#[cycle(forest_parts)]
#[inline(always)]
fn read_turn(
    body: &[Part],
    step: u32,
    kind: u8,
    cursor: &mut Cursor<'_>,
    from: Progress,
    lengths: &[u32],
) -> Result<Progress, u32>
    ensures { ReadsTurn lengths.now step kind body.now (opened cursor.old) from result (opened cursor.new) }
{
    cursor.turn();
    let row = read_row(cursor, begin(from.spare), step, kind)?;
    read_node(body, cursor, row, from, lengths)
}

/// The walk behind a loop with this body, whose Rows, with so many turns, is innermost. The Rows is closed. A turn behind a
/// fault is left over.
#[cycle(forest_parts)]
#[inline(never)]
fn read_turns(
    body: &[Part],
    step: u32,
    kind: u8,
    turns: u32,
    cursor: &mut Cursor<'_>,
    from: Progress,
    lengths: &[u32],
) -> Result<Progress, u32>
    ensures { ReadsTurns lengths.now step kind body.now turns (opened cursor.old) from result (opened cursor.new) }
{
    let mut progress = from;
    for _ in 0..turns {
        if progress.stopped {
            cursor.close();
            return Ok(spare(progress));
        }
        progress = read_turn(body, step, kind, cursor, progress, lengths)?;
    }
    cursor.close();
    Ok(end_turns(cursor, progress, step))
}

/// The walk behind a loop over a list of so many items, whose Rows, with so many turns, is innermost. The Rows is closed.
#[cycle(forest_parts)]
#[inline(never)]
fn read_list(
    body: &[Part],
    step: u32,
    items: u32,
    turns: u32,
    cursor: &mut Cursor<'_>,
    from: Progress,
    lengths: &[u32],
) -> Result<Progress, u32>
    ensures { ReadsList lengths.now step items body.now turns (opened cursor.old) from result (opened cursor.new) }
{
    if is_counted(cursor, from, step, turns, items) {
        read_turns(body, step, NO_KIND, turns, cursor, from, lengths)
    } else {
        Err(step)
    }
}

/// Whether the turns of the innermost Rows, which are so many, are those of a list with so many items.
#[inline(never)]
fn is_counted(cursor: &Cursor<'_>, from: Progress, step: u32, turns: u32, items: u32) -> bool
    ensures { TellsCounted step turns items (opened cursor.now) from result }
{
    if turns > items {
        return false;
    }
    let mut behind = cursor.copy();
    behind.close();
    let faulted = faults_at(&behind, from, step);
    if turns == items {
        return !faulted;
    }
    faulted || cursor.ends_early()
}

/// The walk where something is left over.
fn spare(from: Progress) -> Progress
    ensures { Spares from result }
{
    Progress {
        raised: from.raised,
        stopped: from.stopped,
        spare: true,
    }
}

/// The walk behind a loop, whose turns ended so: the node's fault may be at its step.
fn end_turns(cursor: &Cursor<'_>, from: Progress, step: u32) -> Progress
    ensures { InNode (opened cursor.now) (λ es f. Ok (walk_of result es f) ≡ meaning.turns_done step (walk_of from es f)) }
{
    if from.stopped {
        from
    } else {
        pass(cursor, from, step)
    }
}

impl Forest<'_> {
    /// Whether the forest fits a remainder, as `fits` tells it of its root. It takes no memory.
    pub fn fits(&self, remainder: &Seq<Part>, lengths: &[u32]) -> Result<(), Misfit>
        ensures { Gives nothing unfit result (meaning.fits (root_of self.now) (mirror_parts remainder.now) lengths.now) }
    {
        let mut cursor = self.cursor();
        match read_parts(remainder.as_slice(), &mut cursor, begin(false), lengths) {
            Ok(end) => {
                if leaves(&cursor, end) {
                    Err(Misfit::Extra)
                } else {
                    Ok(())
                }
            }
            Err(step) => Err(Misfit::At(step)),
        }
    }
}
