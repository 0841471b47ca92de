// Laws of answers and of sessions. They take no memory and do nothing.

ghost use Rattle.rb_meaning.specs.Answers.{HasOneAnswer};
ghost use Rattle.rb_session.specs.Sessions.{IsFedAnywhere};

use rb_meaning_bytes::{
    each_forest_has_one_spelling, each_refusal_has_one_spelling, script_payloads_mean_one_thing,
};

/// A payload has one answer on a service and a table.
pub fn each_payload_has_one_answer()
    ensures { HasOneAnswer }
{
    script_payloads_mean_one_thing();
    each_forest_has_one_spelling();
    each_refusal_has_one_spelling();
}

/// Feeding a session a piece and then another is feeding it both as one: the stream may come in any pieces.
pub fn sessions_are_fed_anywhere()
    ensures { IsFedAnywhere }
{}
