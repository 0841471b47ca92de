//! The law of the places of a program that is read: they have 32 bits.
//!
//! There is no code here; the law is a function that does nothing.
#![tactic(auto)]

ghost use Rattle.rb_law_reading.specs.Places.{ReadProgramsHavePlaces};

/// In a program that is read each statement and each expression stands at a place of 32 bits.
pub fn read_programs_have_places()
    ensures { ReadProgramsHavePlaces }
{}
