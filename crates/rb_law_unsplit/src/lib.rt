//! Laws of the unsplit meaning: what an admitted program gives and leaves fits its types, and it never faults Kind.
//!
//! There is no code here; the laws are functions that do nothing.
#![tactic(auto)]

ghost use Rattle.rb_law_unsplit.specs.CarriedLoops.{LawfulHaveCarriedLoops};
ghost use Rattle.rb_law_unsplit.specs.Kept.{AdmittedMeanWell};
ghost use Rattle.rb_law_unsplit.specs.Noted.{LawfulAreNoted};

use rb_flow::admitted_programs_send_only_portable_parts;
use rb_law_types::{
    conditions_have_truths, lawful_code_is_formed, operators_keep_types, remote_calls_are_typed,
    remote_calls_keep_tables, typed_code_keeps_types,
};

/// In a lawful program the type of each expression is the one that is noted at its position.
pub fn lawful_programs_are_noted()
    ensures { LawfulAreNoted }
{}

/// In a lawful program a statement of a batch is a carried loop just where one stands at its position.
pub fn carried_loops_stand_at_their_positions()
    ensures { LawfulHaveCarriedLoops }
{}

/// A lawful, typed program without refusals, on a typed service and with whatever fuel, ends by a value of `main`'s type
/// or by a fault that isn't Kind, and leaves a table that fits the service; whatever others do to the table between its
/// batches, as long as that keeps tables fitting.
pub fn admitted_programs_never_fault_kind()
    ensures { AdmittedMeanWell }
{
    typed_code_keeps_types();
    operators_keep_types();
    conditions_have_truths();
    remote_calls_keep_tables();
    remote_calls_are_typed();
    lawful_code_is_formed();
    admitted_programs_send_only_portable_parts();
    lawful_programs_are_noted();
}
