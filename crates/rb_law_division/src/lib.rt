//! Laws of the division of a batch: what its script is, what a run of it gives to the remainder, and where faults stand.
//!
//! There is no code here; the laws are functions that do nothing.
#![tactic(auto)]

ghost use Rattle.rb_law_division.specs.Faults.{OwnFaultsStandElsewhere, SentFaultsAreRemote, SentIsRemote};
ghost use Rattle.rb_law_division.specs.Fitting.{NodesFit};
ghost use Rattle.rb_law_division.specs.Sendable.{DividedCanBeSent};

use rb_flow::admitted_programs_send_only_portable_parts;
use rb_law_types::{
    conditions_have_truths, lawful_code_is_formed, operators_keep_types, remote_calls_are_typed,
    remote_calls_keep_tables, typed_code_keeps_types,
};
use rb_law_unsplit::lawful_programs_are_noted;
use rb_marks::{each_expression_has_its_mark, remote_expressions_stand_in_the_script};

/// In a lawful, typed program without refusals, the script of each batch that is divided can be sent: it is formed and
/// valid, and with all its inputs a request of version 2 holds it.
pub fn divided_scripts_can_be_sent()
    ensures { DividedCanBeSent }
{
    admitted_programs_send_only_portable_parts();
}

/// In a lawful, typed program without refusals, and on a typed service, what the script of a batch gives fits the batch's
/// remainder, for each local state in which the batch may begin.
pub fn nodes_of_scripts_fit()
    ensures { NodesFit }
{
    operators_keep_types();
    conditions_have_truths();
    remote_calls_keep_tables();
    remote_calls_are_typed();
    lawful_code_is_formed();
    typed_code_keeps_types();
    admitted_programs_send_only_portable_parts();
    lawful_programs_are_noted();
}

/// What the service evaluates of a statement of a batch is Remote where it stands.
pub fn sent_expressions_are_remote()
    ensures { SentIsRemote }
{}

/// In a lawful, typed program and on a typed service, each fault of what is sent in a batch is remote: the server answered
/// it, or it stands at a position that is marked Remote.
pub fn sent_code_faults_remotely()
    ensures { SentFaultsAreRemote }
{
    operators_keep_types();
    remote_calls_keep_tables();
    remote_calls_are_typed();
    lawful_code_is_formed();
    each_expression_has_its_mark();
}

/// In a lawful program without refusals, what is left of a statement of a batch without its remote expressions faults on
/// replay at positions that aren't marked Remote, unless the fault is remote.
pub fn own_faults_stand_elsewhere()
    ensures { OwnFaultsStandElsewhere }
{
    each_expression_has_its_mark();
    remote_expressions_stand_in_the_script();
}
