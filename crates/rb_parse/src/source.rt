// Reading a source, as a program or as the text of a service.

ghost use Rattle.std.specs.Prelude.{◌≡◌, ◌≤◌, length, IfOk};
ghost use Rattle.rb_trees.specs.Limits.{most_objects};
ghost use Rattle.rb_trees.specs.mirror.Declarations.{mirror_program};
ghost use Rattle.rb_trees.specs.mirror.Services.{mirror_service_text};
ghost use Rattle.rb_trees.specs.Outcome.{Tells};
ghost use Rattle.rb_trees.specs.Reading.{read_refusal};
ghost use Rattle.rb_meaning_bytes.specs.grammar.Sources.{ReadSource, ReadService};
ghost use Rattle.rb_meaning_types.specs.Lawful.{IsLawful, IsLawfulServiceText};
ghost use Rattle.rb_parse.specs.Told.{refusal_of};

use crate::reading::parse_tokens;
use crate::service_reading::parse_service_tokens;
use rb_lex::lex;
use rb_trees::{LexError, Program, ReadError, ServiceText};
use std::alloc::Global;

/// The program of a source, or the first refusal.
///
/// What a source is read as, `ReadSource` of `rb_meaning_bytes` says; `Memory` may come at any time, and says
/// nothing of the source.
pub fn parse_program(alloc: Global, source: &[u8]) -> Result<Program, ReadError>
    // What is answered, the source has: this program, or this first refusal.
    ensures read { Tells mirror_program read_refusal result (ReadSource source.now) }
    // What is read is lawful.
    ensures lawful { IfOk result (λ program. IsLawful (mirror_program program)) }
{
    match lex(alloc, source) {
        Ok(tokens) => parse_tokens(alloc, source, tokens.as_slice()),
        Err(fault) => Err(refused(fault)),
    }
}

/// The text of a service that a source is, or the first refusal.
///
/// What a source is read as, `ReadService` of `rb_meaning_bytes` says; `Memory` may come at any time, and says
/// nothing of the source.
pub fn parse_service(alloc: Global, source: &[u8]) -> Result<ServiceText, ReadError>
    // What is answered, the source has: this text of a service, or this first refusal.
    ensures read { Tells mirror_service_text read_refusal result (ReadService source.now) }
    // What is read is lawful.
    ensures lawful { IfOk result (λ service. IsLawfulServiceText (mirror_service_text service)) }
    // A heap has room for the objects that are read.
    ensures room { IfOk result (λ service. length service.objects ≤ most_objects) }
{
    match lex(alloc, source) {
        Ok(tokens) => parse_service_tokens(alloc, source, tokens.as_slice()),
        Err(fault) => Err(refused(fault)),
    }
}

/// The refusal of a source without tokens.
fn refused(fault: LexError) -> ReadError
    ensures { result ≡ refusal_of fault }
{
    match fault {
        LexError::BadByte(at) => ReadError::Lex(LexError::BadByte(at)),
        LexError::OpenText(at) => ReadError::Lex(LexError::OpenText(at)),
        LexError::NumberTooLarge(at) => ReadError::Lex(LexError::NumberTooLarge(at)),
        LexError::NotUtf8(at) => ReadError::Lex(LexError::NotUtf8(at)),
        LexError::TooLong(at) => ReadError::Lex(LexError::TooLong(at)),
        LexError::Memory => ReadError::Memory,
    }
}
