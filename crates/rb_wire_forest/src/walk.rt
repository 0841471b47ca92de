// What the steps of a remainder demand of the entries of a node.

ghost use Rattle.std.specs.Prelude.{◌≡◌, option_map};
ghost use Rattle.rb_trees.specs.Outcome.{Gives};
ghost use Rattle.rb_trees.specs.declared.values.Value.{out-Value};
ghost use Rattle.rb_trees.specs.mirror.Forests.{mirror_node, mirror_entries};
ghost use Rattle.rb_meaning_bytes.specs.Fits as meaning;
ghost use Rattle.rb_wire_forest.specs.Walks.{seen, step_told, seen_branch, seen_rows};

use rb_trees::{Entry, Item, Node, Value};

/// Where the walk of a node stands.
#[derive(Clone, Copy)]
pub(crate) struct Walk<'a> {
    /// The entries that no part has read yet.
    pub left: &'a [Entry],
    /// The step of the node's fault, while no part has raised it.
    pub fault: Option<u32>,
    /// Whether a fault was raised, in the node or within the entry that was read last.
    pub stopped: bool,
    /// Whether something is left over within an entry that was read.
    pub spare: bool,
}

/// The walk of a node begins.
#[tactic(auto, using(crate::proofs::Walked::nodes))]
pub(crate) fn begin(node: &Node, spare: bool) -> Walk<'_>
    ensures { seen result ≡ meaning.begun (mirror_node node.now) spare }
{
    let fault = match &node.fault {
        Some(fault) => Some(fault.step),
        None => None,
    };
    Walk {
        left: node.entries.as_slice(),
        fault,
        stopped: false,
        spare,
    }
}

/// Whether an entry is left.
fn are_left(entries: &[Entry]) -> bool
    ensures { result ≡ meaning.are_left (mirror_entries entries.now) }
{
    match entries {
        [_, ..] => true,
        [] => false,
    }
}

/// Whether something is left over where the walk ends.
pub(crate) fn leaves(walk: &Walk) -> bool
    ensures { result ≡ meaning.leaves (seen walk.now) }
{
    walk.spare || are_left(walk.left) || walk.fault.is_some()
}

/// The walk behind an entry, in which the walk of a node ended so.
pub(crate) fn behind<'a>(walk: &Walk<'a>, left: &'a [Entry], inner: &Walk<'a>) -> Walk<'a>
    ensures { seen result ≡ meaning.behind (seen walk.now) (mirror_entries left.now) (seen inner.now) }
{
    Walk {
        left,
        fault: walk.fault,
        stopped: inner.stopped,
        spare: leaves(inner),
    }
}

/// The walk behind the entries that were read.
pub(crate) fn go<'a>(walk: &Walk<'a>, left: &'a [Entry]) -> Walk<'a>
    ensures { seen result ≡ meaning.went (seen walk.now) (mirror_entries left.now) }
{
    Walk {
        left,
        fault: walk.fault,
        stopped: walk.stopped,
        spare: walk.spare,
    }
}

/// Whether the node's fault is at the step, with no entry left before it.
pub(crate) fn faults_at(walk: &Walk, step: u32) -> bool
    ensures { result ≡ meaning.faults_at step (seen walk.now) }
{
    if are_left(walk.left) {
        return false;
    }
    match walk.fault {
        Some(at) => at == step,
        None => false,
    }
}

/// The walk where the node's fault is raised.
fn raise<'a>(walk: &Walk<'a>) -> Walk<'a>
    ensures { seen result ≡ meaning.raised (seen walk.now) }
{
    Walk {
        left: walk.left,
        fault: None,
        stopped: true,
        spare: walk.spare,
    }
}

/// The walk behind a step that gives no entry.
pub(crate) fn pass<'a>(walk: &Walk<'a>, step: u32) -> Walk<'a>
    ensures { Ok (seen result) ≡ meaning.passed step (seen walk.now) }
{
    if faults_at(walk, step) {
        raise(walk)
    } else {
        *walk
    }
}

/// The walk behind a step whose entry isn't there.
pub(crate) fn miss<'a>(walk: &Walk<'a>, step: u32) -> Result<Walk<'a>, u32>
    ensures { Gives seen step_told result (meaning.raised_or step (seen walk.now) (Err step)) }
{
    if faults_at(walk, step) {
        Ok(raise(walk))
    } else {
        Err(step)
    }
}

/// Whether a value is primitive and of this kind.
fn has_kind(value: &Value, kind: u8) -> bool
    ensures { result ≡ meaning.form_has_kind kind (out-Value value.now) }
{
    match value {
        Value::Int(_) => kind == Item::Int.number(),
        Value::Bool(_) => kind == Item::Bool.number(),
        Value::Text(_) => kind == Item::Text.number(),
        _ => false,
    }
}

/// The entries behind a value of this kind.
#[tactic(auto, using(crate::proofs::Walked::entries))]
fn behind_value(entries: &[Entry], kind: u8) -> Option<&[Entry]>
    ensures { option_map (λ es. mirror_entries es.now) result ≡ meaning.behind_value kind (mirror_entries entries.now) }
{
    let (first, rest) = entries.split_first()?;
    match first {
        Entry::Value(value) if has_kind(value, kind) => Some(rest),
        Entry::Value(_) | Entry::Branch(_, _) | Entry::Rows(_) => None,
    }
}

/// The branch that stands first: which one was taken, its node, and the entries behind it.
#[tactic(auto, using(crate::proofs::Walked::entries))]
pub(crate) fn first_branch(entries: &[Entry]) -> Option<(bool, &Node, &[Entry])>
    ensures { option_map seen_branch result ≡ meaning.first_branch (mirror_entries entries.now) }
{
    let (first, rest) = entries.split_first()?;
    match first {
        Entry::Branch(taken, node) => Some((*taken, node, rest)),
        Entry::Value(_) | Entry::Rows(_) => None,
    }
}

/// The rows that stand first: the nodes of the turns, and the entries behind them.
#[tactic(auto, using(crate::proofs::Walked::entries))]
pub(crate) fn first_rows(entries: &[Entry]) -> Option<(&[Node], &[Entry])>
    ensures { option_map seen_rows result ≡ meaning.first_rows (mirror_entries entries.now) }
{
    let (first, rest) = entries.split_first()?;
    match first {
        Entry::Rows(turns) => Some((turns.as_slice(), rest)),
        Entry::Value(_) | Entry::Branch(_, _) => None,
    }
}

/// The walk behind a value of this kind.
pub(crate) fn read_value<'a>(walk: &Walk<'a>, step: u32, kind: u8) -> Result<Walk<'a>, u32>
    ensures { Gives seen step_told result (meaning.value_read step kind (seen walk.now)) }
{
    match behind_value(walk.left, kind) {
        Some(rest) => Ok(go(walk, rest)),
        None => miss(walk, step),
    }
}

/// Whether rows of this kind are kept: the primitive ones.
pub(crate) fn is_kept(kind: u8) -> bool
    ensures { result ≡ meaning.is_kept kind }
{
    kind >= Item::Int.number() && kind <= Item::Text.number()
}

/// The walk behind the row that a turn's node begins with, where rows are kept.
pub(crate) fn read_row<'a>(walk: &Walk<'a>, step: u32, kind: u8) -> Result<Walk<'a>, u32>
    ensures { Gives seen step_told result (meaning.row_read step kind (seen walk.now)) }
{
    if !is_kept(kind) {
        return Ok(*walk);
    }
    match behind_value(walk.left, kind) {
        Some(rest) => Ok(go(walk, rest)),
        None => Err(step),
    }
}

/// The walk behind the values that a statement takes.
#[tactic(auto, using(crate::proofs::Walked::values_stopped))]
pub(crate) fn read_values<'a>(from: &Walk<'a>, takes: &[(u32, u8)]) -> Result<Walk<'a>, u32>
    ensures { Gives seen step_told result (meaning.values_read takes.now (seen from.now)) }
{
    let mut walk = *from;
    for (step, kind) in takes {
        if walk.stopped {
            return Ok(walk);
        }
        walk = read_value(&walk, *step, *kind)?;
    }
    Ok(walk)
}
