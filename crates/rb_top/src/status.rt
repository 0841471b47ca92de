// How a command ends.

ghost use Rattle.std.specs.Prelude.{◌≡◌};
ghost use Rattle.rb_top.specs.Codes.{code_of};
ghost use Rattle.rb_top.specs.Runs.{ended_status};

use rb_client::BadReason;
use rb_json::JsonRefusal;
use rb_trees::{Ending, Fault, ReadError, Refusal, Seq, StoreError, TypeError, Word};
use thiserror::Error;

/// Why a program's text is refused.
#[derive(Debug, Drop, Error)]
pub enum SourceError {
    /// The text isn't read. This holds no Memory, nor does its `Lex`.
    #[error("{0}")]
    Read(ReadError),
    /// The program that was read isn't typed. This holds no Memory.
    #[error("{0}")]
    Types(TypeError),
}

/// How a command ended.
#[derive(Drop)]
pub enum Status {
    Done,
    /// The program ended by a fault at a position.
    Faulted(Fault, u32),
    /// The words are no command.
    Words,
    /// The file of this name can't be read.
    FileFault(Word),
    SourceRefused(SourceError),
    /// A batch of the program isn't admitted.
    BatchRefused(Refusal),
    /// The service's text is refused. This holds no Memory.
    ServiceRefused(StoreError),
    /// The exchange after so many failed.
    LinkFault(u64),
    /// The reply after so many was refused. Its kind and its payload are kept; or kind 0 and the bytes that were taken, where
    /// its frame is broken or cut.
    BadReply {
        done: u64,
        reason: BadReason,
        kind: u8,
        bytes: Seq<u8>,
    },
    /// The output failed.
    WriteFault,
    Memory,
    /// The server can't be reached.
    DialFault,
    /// The address can't be listened at, or no further session can be had there.
    ListenFault,
    /// The file of this name has more than 1,048,576 bytes.
    FileTooLong(Word),
    /// The line of the events with this number, from 1, is the first that is no event's.
    EventRefused(u64),
    /// The disk of this name can't be had, or a call of it failed.
    DiskFault(Word),
    /// The journal is refused: 3 is full, 4 is none, and 5 has a bad record.
    JournalRefused(u8),
    /// The request in JSON is refused.
    JsonRefused(JsonRefusal),
}

impl Status {
    /// The exit status of the program.
    pub fn code(&self) -> u8
        ensures { result ≡ code_of self.now }
    {
        match self {
            Status::Done => 0,
            Status::Faulted(_, _) => 1,
            Status::Words => 2,
            Status::FileFault(_) => 3,
            Status::SourceRefused(_) => 4,
            Status::BatchRefused(_) => 5,
            Status::ServiceRefused(_) => 6,
            Status::LinkFault(_) => 7,
            Status::BadReply { .. } => 8,
            Status::WriteFault => 9,
            Status::Memory => 10,
            Status::DialFault => 11,
            Status::ListenFault => 12,
            Status::FileTooLong(_) => 13,
            Status::EventRefused(_) => 14,
            Status::DiskFault(_) => 15,
            Status::JournalRefused(_) => 16,
            Status::JsonRefused(_) => 17,
        }
    }
}

/// The status of how a program ended.
pub fn status_of(ending: Ending) -> Status
    ensures { result ≡ ended_status ending }
{
    match ending {
        Ending::Done(_) => Status::Done,
        Ending::Faulted(fault, at) => Status::Faulted(fault, at),
    }
}
