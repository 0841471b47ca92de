// The service of a source.

ghost use Rattle.std.specs.Prelude.{◌≤◌, length, IfOk, IfErr};
ghost use Rattle.rb_trees.specs.Limits.{most_objects};
ghost use Rattle.rb_trees.specs.Outcome.{Tells};
ghost use Rattle.rb_trees.specs.mirror.Services.{mirror_service, mirror_service_text};
ghost use Rattle.rb_meaning_types.specs.Lawful.{IsLawfulServiceText};
ghost use Rattle.rb_meaning_types.specs.Stores.{store_refusal};
ghost use Rattle.rb_meaning.specs.Links.{IsTyped};
ghost use Rattle.rb_meaning.specs.ServiceSources.{ReadsAsService};
ghost use Rattle.rb_store.specs.Outcomes.{TellsText};
ghost use Rattle.rb_store.specs.Views.{HoldsNoMemory, stored};

use crate::services::make_service;
use rb_heap::Heap;
use rb_parse::parse_service;
use rb_trees::{ReadError, Service, ServiceText, StoreError};
use std::alloc::Global;

// The text that a source is read as.
fn read_text(alloc: Global, source: &[u8]) -> Result<ServiceText, StoreError>
    ensures read { TellsText source.now result }
    ensures apart { IfErr result HoldsNoMemory }
    ensures lawful { IfOk result (λ t. IsLawfulServiceText (mirror_service_text t)) }
    ensures room { IfOk result (λ t. length t.objects ≤ most_objects) }
{
    match parse_service(alloc, source) {
        Ok(text) => Ok(text),
        Err(ReadError::Lex(fault)) => Err(StoreError::Read(ReadError::Lex(fault))),
        Err(ReadError::Unexpected(at)) => Err(StoreError::Read(ReadError::Unexpected(at))),
        Err(ReadError::TooNested(at)) => Err(StoreError::Read(ReadError::TooNested(at))),
        Err(ReadError::Memory) => Err(StoreError::Memory),
    }
}

/// The service of a source with the table of its objects, or the first refusal.
///
/// What a source is as a service, `ReadsAsService` of `rb_meaning` says; `Memory` may come at any time, and says nothing
/// of the source.
pub fn read_service(alloc: Global, source: &[u8]) -> Result<(Service, Heap), StoreError>
    // What is answered, the source is: this service with this table, or it has this first refusal.
    ensures read { Tells stored store_refusal result (ReadsAsService source.now) }
    // Want of memory is told as such.
    ensures apart { IfErr result HoldsNoMemory }
    // Its classes are lawful and typed, each object fits its class, and the root is one of them.
    ensures typed { IfOk result (λ s. IsTyped (mirror_service s.0) s.1) }
{
    let text = read_text(alloc, source)?;
    make_service(alloc, text)
}
