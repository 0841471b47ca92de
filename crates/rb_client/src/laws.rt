// A law of programs that are under way. It takes no memory and does nothing.

ghost use Rattle.rb_client.specs.Remote.{ReachedPerformRemoteParts};

use rb_flow::admitted_programs_send_only_portable_parts;
use rb_law_script::scripts_perform_remote_parts;
use rb_law_types::{
    conditions_have_truths, lawful_code_is_formed, operators_keep_types, remote_calls_are_typed,
    remote_calls_keep_tables, typed_code_keeps_types,
};
use rb_law_unsplit::lawful_programs_are_noted;

/// In a lawful, typed program without refusals, on a typed service, the script of each batch that the program reaches performs
/// just the batch's whole remote part, on whatever table that fits the service.
pub fn reached_batches_perform_remote_parts()
    ensures { ReachedPerformRemoteParts }
{
    typed_code_keeps_types();
    operators_keep_types();
    conditions_have_truths();
    remote_calls_keep_tables();
    remote_calls_are_typed();
    lawful_code_is_formed();
    admitted_programs_send_only_portable_parts();
    lawful_programs_are_noted();
    scripts_perform_remote_parts();
}
