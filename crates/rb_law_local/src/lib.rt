//! Laws of the division: the local code of a batch does the same where it stands and where it is replayed.
//!
//! There is no code here; the laws are functions that do nothing.
#![tactic(auto)]

ghost use Rattle.rb_law_local.specs.Admitted.{AdmittedAreParted, BatchesBeginKnown, TurnsBeginKnown, TypesAreKnown};
ghost use Rattle.rb_law_local.specs.Local.{LocalCodeDoesTheSame};
ghost use Rattle.rb_law_local.specs.Marked.{AdmittedArePlaced};

/// Local code of an admitted batch, whose remote calls the server performs where they stand, and the same code at the
/// client, which takes what the script kept of its remote expressions, show the same lines and end alike: by the same
/// value, by the same local fault, or by a remote fault that stopped the script, too.
pub fn local_code_does_the_same()
    ensures { LocalCodeDoesTheSame }
{}

/// In a batch without refusals each statement that stays with the client as a whole takes only portable expressions, none
/// of them under `&&` or `||` or in a block; all else of it reads no remote object and no rows.
pub fn remote_expressions_stand_as_they_should()
    ensures { AdmittedAreParted }
{}

/// What that asks of the scopes is so where a batch begins, and where a turn over rows or over a constant list does.
pub fn scopes_of_batches_are_known()
    ensures batches { BatchesBeginKnown }
    ensures turns { TurnsBeginKnown }
    ensures types { TypesAreKnown }
{}

/// What isn't taken of such a statement stands at positions that aren't those of remote expressions, nor of carried loops.
pub fn local_code_is_not_marked_remote()
    ensures { AdmittedArePlaced }
{}
