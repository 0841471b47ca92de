// A cursor over a forest's bytes.

ghost use Rattle.std.specs.Prelude.{◌≡◌, ◌<◌, ◌≤◌, true, is_some, length};
ghost use Rattle.rb_wire_forest.specs.Opens.{all_open, frames_from};

use crate::early::turns_early;
use crate::forest::Forest;
use crate::frames::{Frame, MOST_NODES, root_frames};
use crate::heads::{Head, LentFault, end, end_step, first_head, first_version};
use crate::skips::{skip_left, skip_turns};
use rb_trees::Version;
use rb_wire_fields::fields::number;
use rb_wire_fields::texts::Item;

/// A walk of a forest in its bytes. It takes no memory: the bytes that are left tell what is left of all that is open.
#[derive(Drop)]
pub struct Cursor<'a> {
    version: Version,
    rest: &'a [u8],
    frames: [Frame; MOST_NODES],
    depth: usize,
    ghost some: { 0 < depth },
    ghost within: { depth ≤ 64 },
    ghost full: { length frames ≡ 64 },
    ghost whole: { is_some (all_open version (frames_from frames depth) rest.now) ≡ true },
}

impl<'a> Forest<'a> {
    ghost use Rattle.std.specs.Prelude.{[], ◌∷◌};
    ghost use Rattle.rb_wire_forest.specs.Opens.{AtNode};
    ghost use Rattle.rb_wire_forest.specs.Opened.{root_of, opened};

    /// The walk of the whole forest begins.
    pub fn cursor(&self) -> Cursor<'a>
        ensures { opened result ≡ AtNode (root_of self.now) ∷ [] }
    {
        let Ok((version, behind)) = first_version(self.payload) else {
            unreachable!();
        };
        let Ok((entries, rest)) = number(behind) else {
            unreachable!();
        };
        Cursor {
            version,
            rest,
            frames: root_frames(entries),
            depth: 1,
        }
    }
}

impl<'a> Cursor<'a> {
    ghost use Rattle.rb_meaning_bytes.specs.Fits.{step_of};
    ghost use Rattle.rb_wire_fields.specs.Items.{value_seen};
    ghost use Rattle.rb_wire_forest.specs.Fronts.{end_seen};
    ghost use Rattle.rb_wire_forest.specs.CursorSteps.{Takes, Moves, next_value, next_branch, next_rows, next_turn, next_fault, has_entry, ends_early, closing, closed};
    ghost use Rattle.rb_wire_forest.specs.Opened.{opened};

    /// Takes the next entry of the innermost node, where that is a value. Else nothing changes.
    #[inline(always)]
    pub fn value(&mut self) -> Option<Item<'a>>
        ensures { Takes value_seen next_value (opened self.old) result (opened self.new) }
    {
        let top = self.frames[self.depth - 1];
        if top.turns.is_some() || top.entries == 0 {
            return None;
        }
        match first_head(self.version, self.rest) {
            Some((Head::Value(item), rest)) => {
                self.frames[self.depth - 1] = Frame {
                    entries: top.entries - 1,
                    turns: None,
                };
                self.rest = rest;
                Some(item)
            }
            Some((Head::Branch(_, _), _)) => None,
            Some((Head::Rows(_), _)) => None,
            None => None,
        }
    }

    /// Takes a branch, and opens its node: which one was taken. Else nothing changes.
    #[inline(always)]
    pub fn branch(&mut self) -> Option<bool>
        ensures { Takes (λ b. b) next_branch (opened self.old) result (opened self.new) }
    {
        let top = self.frames[self.depth - 1];
        if top.turns.is_some() || top.entries == 0 {
            return None;
        }
        match first_head(self.version, self.rest) {
            Some((Head::Branch(taken, count), rest)) => {
                self.frames[self.depth - 1] = Frame {
                    entries: top.entries - 1,
                    turns: None,
                };
                self.frames[self.depth] = Frame {
                    entries: count,
                    turns: None,
                };
                self.depth += 1;
                self.rest = rest;
                Some(taken)
            }
            Some((Head::Value(_), _)) => None,
            Some((Head::Rows(_), _)) => None,
            None => None,
        }
    }

    /// Takes a Rows, and opens it: the number of its nodes. Else nothing changes.
    pub fn rows(&mut self) -> Option<u32>
        ensures { Takes (λ n. n) next_rows (opened self.old) result (opened self.new) }
    {
        let top = self.frames[self.depth - 1];
        if top.turns.is_some() || top.entries == 0 {
            return None;
        }
        match first_head(self.version, self.rest) {
            Some((Head::Rows(count), rest)) => {
                self.frames[self.depth - 1] = Frame {
                    entries: top.entries - 1,
                    turns: Some(count),
                };
                self.rest = rest;
                Some(count)
            }
            Some((Head::Value(_), _)) => None,
            Some((Head::Branch(_, _), _)) => None,
            None => None,
        }
    }

    /// Opens the next node of the innermost Rows. Else nothing changes.
    #[inline]
    pub fn turn(&mut self) -> bool
        ensures { Moves next_turn (opened self.old) result (opened self.new) }
    {
        let top = self.frames[self.depth - 1];
        let Some(turns) = top.turns else {
            return false;
        };
        if turns == 0 {
            return false;
        }
        let Ok((count, rest)) = number(self.rest) else {
            return false;
        };
        self.frames[self.depth - 1] = Frame {
            entries: top.entries,
            turns: Some(turns - 1),
        };
        self.frames[self.depth] = Frame {
            entries: count,
            turns: None,
        };
        self.depth += 1;
        self.rest = rest;
        true
    }

    /// The fault of the innermost node, where no entries of it are left.
    pub fn fault(&self) -> Option<LentFault<'a>>
        ensures { end_seen result ≡ next_fault (opened self.now) }
    {
        let top = self.frames[self.depth - 1];
        if top.turns.is_some() || top.entries > 0 {
            return None;
        }
        match end(self.version, self.rest) {
            Ok((fault, _)) => fault,
            Err(_) => None,
        }
    }

    /// Whether the innermost is a node with an entry left.
    #[inline(always)]
    pub(crate) fn has_entry(&self) -> bool
        ensures { result ≡ has_entry (opened self.now) }
    {
        let top = self.frames[self.depth - 1];
        if top.turns.is_some() || top.entries == 0 {
            return false;
        }
        true
    }

    /// The step of the fault of the innermost node, where no entries of it are left. The fault's text isn't looked at.
    #[inline(always)]
    pub(crate) fn fault_step(&self) -> Option<u32>
        ensures { result ≡ step_of (next_fault (opened self.now)) }
    {
        let top = self.frames[self.depth - 1];
        if top.turns.is_some() || top.entries > 0 {
            return None;
        }
        end_step(self.version, self.rest)
    }

    /// Whether a fault ends the last node of the innermost Rows.
    pub(crate) fn ends_early(&self) -> bool
        ensures { result ≡ ends_early (opened self.now) }
    {
        let top = self.frames[self.depth - 1];
        let below = MOST_NODES - self.depth;
        let Some(turns) = top.turns else {
            return false;
        };
        match turns_early(self.version, below, turns, self.rest) {
            Ok((early, _)) => early,
            Err(_) => false,
        }
    }

    /// The same walk, which goes on by itself.
    pub(crate) fn copy(&self) -> Cursor<'a>
        ensures { opened result ≡ opened self.now }
    {
        Cursor {
            version: self.version,
            rest: self.rest,
            frames: self.frames,
            depth: self.depth,
        }
    }

    /// Closes the innermost, where nothing of it is left and it isn't the root. Else nothing changes.
    pub fn leave(&mut self) -> bool
        ensures { Moves closing (opened self.old) result (opened self.new) }
    {
        let top = self.frames[self.depth - 1];
        if let Some(turns) = top.turns {
            if turns > 0 {
                return false;
            }
            self.frames[self.depth - 1] = Frame {
                entries: top.entries,
                turns: None,
            };
            return true;
        }
        if top.entries > 0 || self.depth == 1 {
            return false;
        }
        let Ok((_, rest)) = end(self.version, self.rest) else {
            return false;
        };
        self.depth -= 1;
        self.rest = rest;
        true
    }

    /// Closes the innermost, and passes over what is left of it. Nothing changes where it is the root.
    #[inline(always)]
    pub fn close(&mut self) -> bool
        ensures { Moves closed (opened self.old) result (opened self.new) }
    {
        let top = self.frames[self.depth - 1];
        let below = MOST_NODES - self.depth;
        if let Some(turns) = top.turns {
            let Ok(rest) = skip_turns(self.version, below, turns, self.rest) else {
                return false;
            };
            self.frames[self.depth - 1] = Frame {
                entries: top.entries,
                turns: None,
            };
            self.rest = rest;
            return true;
        }
        if self.depth == 1 {
            return false;
        }
        let Ok(rest) = skip_left(self.version, below, top.entries, self.rest) else {
            return false;
        };
        self.depth -= 1;
        self.rest = rest;
        true
    }
}
