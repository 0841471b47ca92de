// Laws of the grammar that others rest on. They take no memory and do nothing.

ghost use Rattle.std.specs.Prelude.{ℕ, List, Ok};
ghost use Rattle.rb_trees.specs.declared.tokens.Token.{Token as Lexeme};
ghost use Rattle.rb_trees.specs.mirror.Declarations.{Program as Tree};
ghost use Rattle.rb_trees.specs.mirror.Services.{ServiceText as Service};
ghost use Rattle.rb_meaning_bytes.specs.grammar.Refusals.{Read, ReadServiceTokens};
ghost use Rattle.rb_meaning_bytes.specs.grammar.Sources.{ReadSource, ReadService};
ghost use Rattle.rb_meaning_types.specs.Lawful.{IsLawful, IsLawfulServiceText};
ghost use Rattle.rb_parse.specs.Outcomes.{AtMostOne, AtLeastOne};
ghost use Rattle.rb_parse.specs.ReadsBack.{PrintsShort, ReadsBack};

/// A list of tokens has at most one outcome: a program, or a refusal.
pub fn token_lists_have_one_outcome()
    ensures { (source : List ℕ) → (tokens : List Lexeme) → AtMostOne (Read source tokens) }
{}

/// A list of tokens has an outcome.
pub fn every_token_list_has_an_outcome()
    ensures { (source : List ℕ) → (tokens : List Lexeme) → AtLeastOne (Read source tokens) }
{}

/// A source has at most one outcome: a program, or a refusal.
pub fn sources_have_one_outcome()
    ensures { (source : List ℕ) → AtMostOne (ReadSource source) }
{}

/// A source has an outcome.
pub fn every_source_has_an_outcome()
    ensures { (source : List ℕ) → AtLeastOne (ReadSource source) }
{}

/// A program that a source is read as is lawful.
pub fn read_programs_are_lawful()
    ensures { (source : List ℕ) → (program : Tree) → ReadSource source (Ok program) → IsLawful program }
{}

/// What is printed of a program that was read is read again, and as the same program but for positions, where its text
/// isn't too long.
pub fn printed_programs_read_back()
    ensures { (source : List ℕ) → (program : Tree) → ReadSource source (Ok program) → PrintsShort program → ReadsBack program }
{}

/// A list of tokens has at most one outcome as the text of a service.
pub fn service_token_lists_have_one_outcome()
    ensures { (source : List ℕ) → (tokens : List Lexeme) → AtMostOne (ReadServiceTokens source tokens) }
{}

/// A list of tokens has an outcome as the text of a service.
pub fn every_service_token_list_has_an_outcome()
    ensures { (source : List ℕ) → (tokens : List Lexeme) → AtLeastOne (ReadServiceTokens source tokens) }
{}

/// A source has at most one outcome as the text of a service.
pub fn service_sources_have_one_outcome()
    ensures { (source : List ℕ) → AtMostOne (ReadService source) }
{}

/// A source has an outcome as the text of a service.
pub fn every_service_source_has_an_outcome()
    ensures { (source : List ℕ) → AtLeastOne (ReadService source) }
{}

/// The text of a service that a source is read as is lawful.
pub fn read_services_are_lawful()
    ensures { (source : List ℕ) → (service : Service) → ReadService source (Ok service) → IsLawfulServiceText service }
{}
