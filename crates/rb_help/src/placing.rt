// The positions of troubles.

ghost use Rattle.std.specs.Prelude.{◌≡◌, IfOk};
ghost use Rattle.std.specs.Option.{option_to_list};
ghost use Rattle.rb_help.specs.Positions as words;
ghost use Rattle.rb_help.specs.Positions.{positions_of, refusal_positions};

use crate::trouble::Trouble;
use rb_trees::{LexError, Memory, ReadError, Refusal, Seq, StoreError, TypeError};
use std::alloc::Global;

/// The position of an error of tokens.
fn lex_position(error: &LexError) -> Option<u32>
    ensures { result ≡ words.lex_position error.now }
{
    match error {
        LexError::BadByte(at)
        | LexError::OpenText(at)
        | LexError::NumberTooLarge(at)
        | LexError::NotUtf8(at)
        | LexError::TooLong(at) => Some(*at),
        LexError::Memory => None,
    }
}

/// The position of an error of reading.
fn read_position(error: &ReadError) -> Option<u32>
    ensures { result ≡ words.read_position error.now }
{
    match error {
        ReadError::Lex(error) => lex_position(error),
        ReadError::Unexpected(at) | ReadError::TooNested(at) => Some(*at),
        ReadError::Memory => None,
    }
}

/// The position of an error of types.
fn type_position(error: &TypeError) -> Option<u32>
    ensures { result ≡ words.type_position error.now }
{
    match error {
        TypeError::UnknownName(at)
        | TypeError::NameTaken(at)
        | TypeError::WrongType(at, _)
        | TypeError::WrongCount(at)
        | TypeError::NotAssignable(at)
        | TypeError::MissingReturn(at)
        | TypeError::TypeNotHere(at)
        | TypeError::NotAllowedHere(at) => Some(*at),
        TypeError::Memory => None,
    }
}

/// The position of an error of a service.
fn store_position(error: &StoreError) -> Option<u32>
    ensures { result ≡ words.store_position error.now }
{
    match error {
        StoreError::Read(error) => read_position(error),
        StoreError::Types(error) => type_position(error),
        StoreError::NoRoot => None,
        StoreError::BadReference(_) => None,
        StoreError::FieldMissing(_) => None,
        StoreError::FieldKind(_) => None,
        StoreError::ObjectNumber(_) => None,
        StoreError::Memory => None,
    }
}

/// A list of one position, or of none.
fn listed(alloc: Global, at: Option<u32>) -> Result<Seq<u32>, Memory>
    ensures { IfOk result (λ ats. ats ≡ option_to_list at) }
{
    match at {
        Some(at) => Seq::from_slice(alloc, &[at]),
        None => Ok(Seq::new(alloc)),
    }
}

/// The positions of a refusal of a batch.
fn in_refusal(alloc: Global, refusal: &Refusal) -> Result<Seq<u32>, Memory>
    ensures { IfOk result (λ ats. ats ≡ refusal_positions refusal.now) }
{
    match refusal {
        Refusal::Flow(chain) => Seq::from_slice(alloc, chain.as_slice()),
        Refusal::UnderLocalCondition(condition, operation) => {
            Seq::from_slice(alloc, &[*condition, *operation])
        }
        Refusal::NotConstant(at)
        | Refusal::Escapes(at)
        | Refusal::BatchInside(at)
        | Refusal::InTry(at)
        | Refusal::RemoteVar(at)
        | Refusal::TooManyInputs(at, _)
        | Refusal::ScriptTooLarge(at, _) => Seq::from_slice(alloc, &[*at]),
    }
}

/// The positions of a trouble, in its order: `positions_of`.
pub fn positions(alloc: Global, trouble: &Trouble<'_>) -> Result<Seq<u32>, Memory>
    ensures { IfOk result (λ ats. ats ≡ positions_of trouble.now) }
{
    match trouble {
        Trouble::Faulted(_, at) => listed(alloc, Some(*at)),
        Trouble::Unread(error) => listed(alloc, read_position(error)),
        Trouble::Untyped(error) => listed(alloc, type_position(error)),
        Trouble::Refused(refusal) => in_refusal(alloc, refusal),
        Trouble::Unserved(error) => listed(alloc, store_position(error)),
        Trouble::Words(_)
        | Trouble::FileFault(_)
        | Trouble::FileTooLong(_)
        | Trouble::NoEvent(_, _)
        | Trouble::NotJson(_)
        | Trouble::WrongForm(_, _)
        | Trouble::DiskFault(_)
        | Trouble::Journal(_, _)
        | Trouble::LinkFault(_, _)
        | Trouble::BadReply(_, _, _)
        | Trouble::DialFault(_)
        | Trouble::ListenFault(_)
        | Trouble::OutputFault
        | Trouble::Memory => Ok(Seq::new(alloc)),
    }
}
