//! Which forests fit a remainder, by cases, and the laws that this agrees with the walk that computes it.
#![tactic(auto)]

ghost use Rattle.rb_fitting_rules.specs.Agree.{FitsAgree, MisfitsAgree, EachHasOneOutcome};

/// Whatever the lengths of lists are, a node fits a remainder by the rules exactly where the walk finds that it does. What
/// the walk finds wrong is the first misfit by the rules.
pub fn rules_agree()
    ensures fits { FitsAgree }
    ensures misfits { MisfitsAgree }
{}

/// By the rules alone, a node fits a remainder or has a first misfit, not both, and one misfit alone.
pub fn one_outcome()
    ensures { EachHasOneOutcome }
{}
