//! The definitions of typing: which programs and services are typed, the first violation of those
//! that aren't, which programs are lawful, and which values fit a type.
//!
//! They stand in `specs/`, over the mirror of the trees, with lemmas on them in `proofs/`. There is no
//! code here; the laws that the rules by cases agree with them are functions of `rb_typing_rules`.
#![tactic(auto)]

ghost use Rattle.rb_meaning_types.specs.Stands.{TypesStand};

/// A position of a program has a type exactly where an expression stands there.
pub fn types_stand_at_expressions()
    ensures { TypesStand }
{}
