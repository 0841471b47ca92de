// What the steps of a remainder demand of a node in its bytes.

ghost use Rattle.std.specs.Prelude.{◌≡◌, Ok, Err};
ghost use Rattle.rb_trees.specs.Outcome.{Gives};
ghost use Rattle.rb_trees.specs.declared.values.Value.{out-Value};
ghost use Rattle.rb_meaning_bytes.specs.Fits as meaning;
ghost use Rattle.rb_wire_fields.specs.Items.{value_seen};
ghost use Rattle.rb_wire_forest.specs.ForestWalks.{walk_of, Begins, Raises, InNode, Walks};
ghost use Rattle.rb_wire_forest.specs.Opened.{opened};
ghost use Rattle.rb_wire_forest.specs.Walks.{step_told};

use crate::cursor::Cursor;
use crate::walk::is_kept;
use rb_trees::Item;
use rb_wire_fields::texts;

/// Where the walk of a cursor's innermost node stands, besides what the cursor tells.
#[derive(Clone, Copy)]
pub(crate) struct Progress {
    /// Whether a part has raised the node's own fault.
    pub raised: bool,
    /// Whether a fault was raised, in the node or within the entry that was read last.
    pub stopped: bool,
    /// Whether something is left over within an entry that was read.
    pub spare: bool,
}

/// The walk of a node begins.
#[inline(always)]
pub(crate) fn begin(spare: bool) -> Progress
    ensures { Begins spare result }
{
    Progress {
        raised: false,
        stopped: false,
        spare,
    }
}

/// The walk where the node's fault is raised.
#[inline(always)]
fn raise(from: Progress) -> Progress
    ensures { Raises from result }
{
    Progress {
        raised: true,
        stopped: true,
        spare: from.spare,
    }
}

/// Whether something is left over where the walk ends.
#[inline(always)]
pub(crate) fn leaves(cursor: &Cursor<'_>, end: Progress) -> bool
    ensures { InNode (opened cursor.now) (λ es f. result ≡ meaning.leaves (walk_of end es f)) }
{
    if end.spare || cursor.has_entry() {
        return true;
    }
    if end.raised {
        return false;
    }
    cursor.fault_step().is_some()
}

/// Whether the node's fault is at the step, with no entry left before it.
#[inline(always)]
pub(crate) fn faults_at(cursor: &Cursor<'_>, from: Progress, step: u32) -> bool
    ensures { InNode (opened cursor.now) (λ es f. result ≡ meaning.faults_at step (walk_of from es f)) }
{
    if from.raised {
        return false;
    }
    match cursor.fault_step() {
        Some(at) => at == step,
        None => false,
    }
}

/// The walk behind a step that gives no entry.
#[inline(always)]
pub(crate) fn pass(cursor: &Cursor<'_>, from: Progress, step: u32) -> Progress
    ensures { InNode (opened cursor.now) (λ es f. Ok (walk_of result es f) ≡ meaning.passed step (walk_of from es f)) }
{
    if faults_at(cursor, from, step) {
        raise(from)
    } else {
        from
    }
}

/// The walk behind a step whose entry isn't there.
pub(crate) fn miss(cursor: &Cursor<'_>, from: Progress, step: u32) -> Result<Progress, u32>
    ensures { InNode (opened cursor.now)
        (λ es f. Gives (λ p. walk_of p es f) step_told result (meaning.raised_or step (walk_of from es f) (Err step))) }
{
    if faults_at(cursor, from, step) {
        Ok(raise(from))
    } else {
        Err(step)
    }
}

/// Whether a primitive value is of this kind.
#[tactic(auto, using(crate::proofs::Walked::values))]
#[inline(always)]
fn has_kind(value: &texts::Item<'_>, kind: u8) -> bool
    ensures { result ≡ meaning.form_has_kind kind (out-Value (value_seen value.now)) }
{
    match value {
        texts::Item::Int(_) => kind == Item::Int.number(),
        texts::Item::Bool(_) => kind == Item::Bool.number(),
        texts::Item::Text(_) => kind == Item::Text.number(),
    }
}

/// The walk behind a value of this kind.
#[inline(always)]
pub(crate) fn read_value(
    cursor: &mut Cursor<'_>,
    from: Progress,
    step: u32,
    kind: u8,
) -> Result<Progress, u32>
    ensures { Walks (meaning.value_read step kind) (opened cursor.old) from result (opened cursor.new) }
{
    match cursor.value() {
        Some(value) => {
            if has_kind(&value, kind) {
                Ok(from)
            } else {
                Err(step)
            }
        }
        None => miss(cursor, from, step),
    }
}

/// The walk behind the row that a turn's node begins with, where rows are kept.
#[inline(always)]
pub(crate) fn read_row(
    cursor: &mut Cursor<'_>,
    from: Progress,
    step: u32,
    kind: u8,
) -> Result<Progress, u32>
    ensures { Walks (meaning.row_read step kind) (opened cursor.old) from result (opened cursor.new) }
{
    if !is_kept(kind) {
        return Ok(from);
    }
    match cursor.value() {
        Some(value) => {
            if has_kind(&value, kind) {
                Ok(from)
            } else {
                Err(step)
            }
        }
        None => Err(step),
    }
}

/// The walk behind the values that a statement takes.
pub(crate) fn read_values(
    cursor: &mut Cursor<'_>,
    from: Progress,
    takes: &[(u32, u8)],
) -> Result<Progress, u32>
    ensures { Walks (meaning.values_read takes.now) (opened cursor.old) from result (opened cursor.new) }
{
    let mut progress = from;
    for (step, kind) in takes {
        if progress.stopped {
            return Ok(progress);
        }
        progress = read_value(cursor, progress, *step, *kind)?;
    }
    Ok(progress)
}
