// Sessions of hubs, whose requests come in turn.

ghost use Rattle.std.specs.Prelude.{IfOk};
ghost use Rattle.rb_session.specs.Answering.{IsTypedHost};

use bytes::BytesMut;
use rb_code::classes_differ;
use rb_exec::Host;
use rb_hub::{Event, Hub, Out, play_one};
use rb_session::put_frame;
use rb_store::read_service;
use rb_trees::{Memory, Seq, StoreError};
use std::alloc::Global;
use std::fmt;
use thiserror::Error;

/// A service without methods.
const SERVICE: &[u8] = b"class D { } object 0: D { } root 0;";

/// The payload of a request without steps. With more bytes behind it, it spells no script.
const EMPTY: &[u8] = b"\x01\x00\x00\x00\x00\x00";

/// The kind of a request.
const REQUEST: u8 = 1;

/// The most bytes of a payload.
const LONGEST: usize = 1 << 24;

/// So many hubs, with so many sessions each, of so many requests each; and how many bytes a payload has, and how many come at once.
#[derive(Clone, Copy)]
pub struct Load {
    pub hubs: u32,
    pub sessions: u32,
    pub requests: u32,
    pub length: u32,
    pub size: u32,
}

/// How many sessions were opened, how many replies came out, and how many bytes their frames have.
#[derive(Clone, Copy)]
pub struct Totals {
    sessions: u64,
    replies: u64,
    bytes: u64,
}

impl fmt::Display for Totals {
    fn fmt<W: fmt::Write>(&self, f: &mut fmt::Formatter<W>) -> fmt::Result {
        let (sessions, replies, bytes) = (self.sessions, self.replies, self.bytes);
        write!(f, "{sessions} sessions, {replies} replies, {bytes} bytes")
    }
}

impl Totals {
    /// Counts what came out.
    fn add(&mut self, out: &Out) {
        match out {
            Out::Opened(_) => self.sessions = self.sessions.wrapping_add(1),
            Out::Reply(_, frame) => {
                self.replies = self.replies.wrapping_add(1);
                self.bytes = self.bytes.wrapping_add(frame.as_slice().len() as u64);
            }
            Out::Ended(..) => {}
        }
    }
}

/// Why there are no totals.
#[derive(Debug, Drop, Error)]
pub enum Trouble {
    #[error("{0}")]
    Service(StoreError),
    #[error("two classes or methods have one name")]
    Same,
    #[error("out of memory")]
    Memory,
}

impl From<Memory> for Trouble {
    fn from(_want: Memory) -> Trouble {
        Trouble::Memory
    }
}

/// The host of the service.
fn host_of(alloc: Global) -> Result<Host, Trouble>
    ensures { IfOk result IsTypedHost }
{
    let (service, table) = match read_service(alloc, SERVICE) {
        Ok(read) => read,
        Err(error) => return Err(Trouble::Service(error)),
    };
    if !classes_differ(alloc, service.classes.as_slice())? {
        return Err(Trouble::Same);
    }
    Ok(Host::make(alloc, service, table)?)
}

/// The frame of a request whose payload has so many bytes, but at least six.
fn frame_of(alloc: Global, length: u32) -> Result<BytesMut, Memory> {
    let mut payload = BytesMut::new(alloc);
    payload.extend_from_slice(EMPTY)?;
    payload.resize((length as usize).clamp(EMPTY.len(), LONGEST), 0)?;
    let mut frame = BytesMut::new(alloc);
    put_frame(REQUEST, payload.as_slice(), &mut frame)?;
    Ok(frame)
}

/// Plays an event, and counts what comes out.
fn tell(
    alloc: Global,
    hub: &mut Hub<Host>,
    event: Event,
    totals: &mut Totals,
) -> Result<(), Memory> {
    let mut outs = Seq::new(alloc);
    if play_one(alloc, hub, event, &mut outs).is_err() {
        return Err(Memory);
    }
    for out in outs.as_slice() {
        totals.add(out);
    }
    Ok(())
}

/// Gives each session of a hub the next bytes of its stream.
fn tell_each(
    alloc: Global,
    hub: &mut Hub<Host>,
    sessions: u32,
    bytes: &[u8],
    totals: &mut Totals,
) -> Result<(), Memory> {
    for number in 0..sessions {
        let piece = Seq::from_slice(alloc, bytes)?;
        tell(alloc, hub, Event::Piece(number, piece), totals)?;
    }
    Ok(())
}

/// A hub whose sessions have had all their requests, and are open.
fn hub_after(
    alloc: Global,
    load: Load,
    frame: &[u8],
    totals: &mut Totals,
) -> Result<Hub<Host>, Trouble> {
    let mut hub = Hub::make(alloc, host_of(alloc)?);
    for _ in 0..load.sessions {
        tell(alloc, &mut hub, Event::Open, totals)?;
    }
    for _ in 0..load.requests {
        for bytes in frame.chunks((load.size as usize).max(1)) {
            tell_each(alloc, &mut hub, load.sessions, bytes, totals)?;
        }
    }
    Ok(hub)
}

/// What comes out of the hubs of a load, which are all there at the end.
pub fn played(alloc: Global, load: Load) -> Result<Totals, Trouble> {
    let frame = frame_of(alloc, load.length)?;
    let mut totals = Totals {
        sessions: 0,
        replies: 0,
        bytes: 0,
    };
    let mut hubs = Seq::new(alloc);
    for _ in 0..load.hubs {
        let hub = hub_after(alloc, load, frame.as_slice(), &mut totals)?;
        hubs.push(hub)?;
    }
    Ok(totals)
}
