//! Laws of whole batches and of whole programs: the division of a program's batches keeps what the program means.
//!
//! What a batch means where it stands is defined in `rb_meaning`, its division and its replay in `rb_meaning_split`, and
//! the run of its script in `rb_meaning_code`. There is no code here; the laws are functions that do nothing.
#![tactic(auto)]

ghost use Rattle.rb_law_client.specs.Answered.{EachAnswerFits, EachPieceKeepsTypes, KindIsNeverCaught};
ghost use Rattle.rb_law_client.specs.Below.{LawsBelow};
ghost use Rattle.rb_law_client.specs.Clients.{ClientsMeanWhatProgramsMean};
ghost use Rattle.rb_law_client.specs.Dividing.{DividingKeepsMeaning, InputsHaveItems};
ghost use Rattle.rb_law_client.specs.Reached.{FrontsAreShown, ProgramsComeAsFar, ReachedBatchesCanBeExchanged};
ghost use Rattle.rb_law_client.specs.ScriptFaults.{ScriptsNeverFaultKind};

use rb_flow::admitted_programs_send_only_portable_parts;
use rb_law_division::{
    divided_scripts_can_be_sent, nodes_of_scripts_fit, sent_code_faults_remotely,
    sent_expressions_are_remote,
};
use rb_law_local::{
    local_code_does_the_same, local_code_is_not_marked_remote,
    remote_expressions_stand_as_they_should, scopes_of_batches_are_known,
};
use rb_law_script::scripts_perform_remote_parts;
use rb_law_types::{
    conditions_have_truths, lawful_code_is_formed, nodes_hold_the_fault, operators_keep_types,
    remote_calls_are_typed, remote_calls_keep_tables, typed_code_keeps_types,
};
use rb_law_unsplit::{carried_loops_stand_at_their_positions, lawful_programs_are_noted};
use rb_marks::each_expression_has_its_mark;

// What the laws of the crates below say, which those of this crate stand on.
fn laws_below()
    ensures { LawsBelow }
{
    conditions_have_truths();
    typed_code_keeps_types();
    operators_keep_types();
    remote_calls_keep_tables();
    remote_calls_are_typed();
    lawful_code_is_formed();
    admitted_programs_send_only_portable_parts();
    lawful_programs_are_noted();
    each_expression_has_its_mark();
    carried_loops_stand_at_their_positions();
    remote_expressions_stand_as_they_should();
    local_code_is_not_marked_remote();
    local_code_does_the_same();
    scopes_of_batches_are_known();
    sent_expressions_are_remote();
    sent_code_faults_remotely();
    scripts_perform_remote_parts();
}

/// In a lawful, typed program without refusals, on a typed service, each batch that code asks for means the same divided:
/// its remainder, replayed on the node that its script gives, ends as the batch does where it stands, with the same local
/// state, value or fault and the fault's side; it shows the same events; and the script leaves the same table.
pub fn dividing_a_batch_keeps_its_meaning()
    ensures { DividingKeepsMeaning }
{
    laws_below();
}

/// In a lawful, typed program the inputs of each batch that code asks for have as many items as the batch takes along: those
/// of the constant lists of its carried loops, each list counted once.
pub fn inputs_have_the_items_of_their_batches()
    ensures { InputsHaveItems }
{
    laws_below();
}

/// In a lawful, typed program without refusals, on a typed service, a client whose scripts give its nodes there, one after
/// the other, each on the table that it finds, means what the program means where others make those tables of the ones that
/// the scripts before left: it ends so and shows the same, and the tables that the program's batches find and leave are
/// those, and the last of them stands at its end. There are such nodes, with whatever fuel, whatever others do that keeps
/// tables fitting.
pub fn clients_mean_what_programs_mean()
    ensures { ClientsMeanWhatProgramsMean }
{
    laws_below();
}

/// In a lawful, typed program without refusals, on a typed service, however far a client comes on nodes that its own scripts
/// give there, the program comes as far: the same is left of it, it has shown the same, its batches have found and left the
/// same tables, the server has the last of them, and what others do from then on is still to come.
pub fn programs_come_as_far_as_clients()
    ensures { ProgramsComeAsFar }
{
    laws_below();
}

/// What a program has shown anywhere on its way is a front of what it means to show.
pub fn fronts_are_shown()
    ensures { FrontsAreShown }
{}

/// Each batch that an accepted program reaches on a typed service can be exchanged, unless its inputs have too many items: its
/// request is within the limit, and the node that its script gives fits its remainder, on whatever table that fits the service.
pub fn reached_batches_can_be_exchanged()
    ensures { ReachedBatchesCanBeExchanged }
{
    laws_below();
    nodes_of_scripts_fit();
    divided_scripts_can_be_sent();
}

/// However far an accepted program comes on a typed service, in `main` and in the batches that it comes to: what it is answered
/// fits what it asked, a value of its type or a fault that isn't Kind, and a batch ends as a statement does where it stands,
/// whatever others do to the table between batches that keeps it fitting.
pub fn answers_fit_on_the_way()
    ensures { EachAnswerFits }
{
    laws_below();
}

/// In the surroundings of an accepted program each typed piece of its code keeps types, in a batch or not, within a `try` or
/// not: it ends by what is of its type or by a fault that isn't Kind.
pub fn accepted_code_keeps_types()
    ensures { EachPieceKeepsTypes }
{
    laws_below();
}

/// What a `try` of an accepted program may catch isn't Kind, in a batch or not.
pub fn kind_is_never_caught()
    ensures { KindIsNeverCaught }
{
    laws_below();
}

/// The script of a batch that an accepted program comes to isn't stopped by Kind, on the service and the table that the batch
/// finds, with the values of its inputs; and in the node that it gives stands no fault Kind.
pub fn scripts_never_fault_kind()
    ensures { ScriptsNeverFaultKind }
{
    laws_below();
    nodes_hold_the_fault();
}
