// The places of the statements of a batch.
#![tactic(auto, using(crate::proofs::Rules::stmt_rules))]

ghost use Rattle.std.specs.Prelude.{◌≡◌, OnOk};
ghost use Rattle.rb_trees.specs.mirror.Code.{mirror_stmt};
ghost use Rattle.rb_marks.specs.Passes as passes;
ghost use Rattle.rb_marks.specs.Views.{told};

use crate::facts::Facts;
use crate::portable::holds_operation;
use rb_trees::{Memory, Place, Stmt};

fn place_of(facts: &Facts, script: bool, s: &Stmt) -> Place
    ensures { result ≡ passes.place_of (told facts.now) script (mirror_stmt s.now) }
{
    if !holds_operation(facts, s) {
        return Place::LocalOnly;
    }
    if script {
        return Place::Script;
    }
    Place::Elsewhere
}

/// Notes the place of a statement.
pub fn note_place(
    facts: &Facts,
    script: bool,
    notes: &mut Vec<(u32, Place)>,
    s: &Stmt,
) -> Result<(), Memory>
    ensures { OnOk result (notes.new.items ≡ passes.place_noted (told facts.now) script notes.old.items (mirror_stmt s.now)) }
{
    let place = place_of(facts, script, s);
    notes.push((s.at, place))?;
    Ok(())
}
