// Laws of tokens. They take no memory and do nothing.

ghost use Rattle.std.specs.Prelude.{ℕ, List};
ghost use Rattle.rb_lex.specs.Laws.{HasOutcome, HasOneOutcome, HasOutcomeByRests};

/// Every text has an outcome.
pub fn every_text_has_an_outcome()
    ensures { (text : List ℕ) → HasOutcome text }
{}

/// No text has two outcomes.
pub fn texts_have_one_outcome()
    ensures { (text : List ℕ) → HasOneOutcome text }
{}

/// The outcome of a text is found from rest to rest.
pub fn outcomes_are_found_by_rests()
    ensures { (text : List ℕ) → HasOutcomeByRests text }
{}
