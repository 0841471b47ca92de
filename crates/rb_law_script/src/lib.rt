//! Laws of the division: what the script of a batch performs.
//!
//! The division is defined in `rb_meaning_split`, the remote part of a batch in `rb_meaning`, and the run of a script in
//! `rb_meaning_code`. There is no code here; the laws are functions that do nothing.
#![tactic(auto)]

ghost use Rattle.rb_law_script.specs.Remote.{ScriptsPerformRemoteParts};

use rb_flow::admitted_programs_send_only_portable_parts;
use rb_law_types::{
    lawful_code_is_formed, operators_keep_types, remote_calls_are_typed, remote_calls_keep_tables,
};
use rb_law_unsplit::lawful_programs_are_noted;

/// In a lawful, typed program without refusals, on a typed service, the script of each batch performs just the batch's
/// whole remote part: it is stopped by the same fault at the same position, if any, and leaves the same server.
pub fn scripts_perform_remote_parts()
    ensures { ScriptsPerformRemoteParts }
{
    operators_keep_types();
    remote_calls_keep_tables();
    remote_calls_are_typed();
    lawful_code_is_formed();
    admitted_programs_send_only_portable_parts();
    lawful_programs_are_noted();
}
