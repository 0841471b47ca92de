// What went wrong.

use rb_trees::{Fault, ReadError, Refusal, StoreError, TypeError};

/// The server that a client speaks to.
#[derive(Clone, Copy)]
pub enum Server<'a> {
    /// The one that listens at this address.
    Address(&'a [u8]),
    /// The child process that serves the file of this name.
    Child(&'a [u8]),
}

/// What is wrong with a server's reply. Bytes are counted from 0.
#[derive(Clone, Copy)]
pub enum ReplyFlaw {
    /// It ends after so many bytes.
    Cut(u64),
    /// It has a byte here that no reply has there.
    Frame(u64),
    /// It holds no results, by this number in the list of what payloads may break, and first at this byte.
    Forest(u8, u64),
    /// Its results lack what this step of the batch's script gives.
    Misfit(u32),
    /// Its results are more than the batch's script gives.
    Extra,
    /// It refuses the batch's script, by a refusal with this number at this place.
    Refused(u8, u32),
    /// It is a refusal that can't be read.
    Garbled,
}

/// What is wrong with a journal.
#[derive(Clone, Copy)]
pub enum JournalFlaw {
    /// It is full.
    Full,
    /// The file is none.
    None,
    /// One of its records is bad.
    BadRecord,
}

/// What went wrong in a command, borrowed from what its status holds. Positions are byte offsets of the text that the
/// trouble speaks of: of the service for `Unserved`, and of the program for all others.
#[derive(Drop)]
pub enum Trouble<'a> {
    /// The program ended by a fault at a position.
    Faulted(&'a Fault, u32),
    /// These words are those of no command, or ask for help on one.
    Words(&'a [String]),
    /// The file of this name can't be read.
    FileFault(&'a [u8]),
    /// The file of this name has more than 1,048,576 bytes.
    FileTooLong(&'a [u8]),
    /// The program's text isn't read.
    Unread(&'a ReadError),
    /// The program that was read isn't typed.
    Untyped(&'a TypeError),
    /// In the file of events of this name, the line of this number, from 1, is no event.
    NoEvent(&'a [u8], u64),
    /// The file of this name isn't JSON.
    NotJson(&'a [u8]),
    /// In the file of this name, the value of this number, from 0, is the first that breaks the form of requests in JSON.
    WrongForm(&'a [u8], u32),
    /// The journal of this name can't be had, or a call of its file failed.
    DiskFault(&'a [u8]),
    /// The journal of this name is refused.
    Journal(&'a [u8], JournalFlaw),
    /// A batch of the program isn't admitted or divided.
    Refused(&'a Refusal),
    /// The service's text is refused.
    Unserved(&'a StoreError),
    /// An exchange with the server failed, after so many that didn't.
    LinkFault(Server<'a>, u64),
    /// The server's reply can't be used, after so many that could.
    BadReply(Server<'a>, u64, ReplyFlaw),
    /// No link to the server came about.
    DialFault(Server<'a>),
    /// What is named so can't be listened on.
    ListenFault(&'a [u8]),
    /// The output can't be written.
    OutputFault,
    /// No memory was left.
    Memory,
}
