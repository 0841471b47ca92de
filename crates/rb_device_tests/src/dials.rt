// What is dialled over loopback.

use crate::frames::{RECEIVED, RECEIVED_PART, REPLY, SENT, expect, expect_all};
use crate::hosts::CALL;
use rb_base::{Link, LinkStop, Reply};
use rb_devices::{RealDial, RealLink};
use rb_session::{Dial, DialStop, Target};
use rb_trees::Seq;
use std::alloc::Global;
use std::io::Write;
use std::net::{TcpListener, TcpStream};
use std::test::Fail;
use std::time::Duration;

/// A peer on this machine that is dialled, and what an exchange of the call with it comes to.
struct Peer {
    /// The timeout of the dial, in milliseconds.
    timeout: Option<u64>,
    /// What the peer has already sent. So one thread does for both: what is sent to it waits at its side.
    sent: &'static [u8],
    /// Whether it has closed the connection behind that. Else it gets the frame of the call, and no more.
    has_closed: bool,
    answer: Answer,
}

/// What an exchange comes to.
enum Answer {
    /// A reply of this payload.
    Reply(&'static [u8]),
    /// The end of the reply behind so many bytes.
    Cut(u64),
    /// A fault.
    Failed,
}

const PEERS: &[Peer] = &[
    Peer {
        timeout: None,
        sent: RECEIVED,
        has_closed: false,
        answer: Answer::Reply(REPLY),
    },
    // It closes early.
    Peer {
        timeout: None,
        sent: RECEIVED_PART,
        has_closed: true,
        answer: Answer::Cut(5),
    },
    // It sends nothing more.
    Peer {
        timeout: Some(50),
        sent: RECEIVED_PART,
        has_closed: false,
        answer: Answer::Failed,
    },
];

/// Whether an exchange came to this.
fn is_answered(found: &Result<Reply, LinkStop>, want: &Answer) -> bool {
    match (found, want) {
        (Ok(reply), Answer::Reply(payload)) => reply.payload.as_slice() == *payload,
        (Err(LinkStop::Cut { got, bytes: _ }), Answer::Cut(count)) => *got == *count,
        (Err(LinkStop::Failed), Answer::Failed) => true,
        _ => false,
    }
}

/// Takes the connection of a link as a peer does, and fails where the exchange comes to something else. Answers the
/// peer's side, unless that has closed.
fn exchanged(
    link: &mut RealLink,
    listener: &TcpListener,
    peer: &Peer,
) -> Result<Option<TcpStream>, Fail> {
    let (mut stream, _) = listener.accept()?;
    stream.write_all(peer.sent)?;
    let side = if peer.has_closed {
        drop(stream);
        None
    } else {
        Some(stream)
    };
    if is_answered(&link.exchange(CALL), &peer.answer) {
        Ok(side)
    } else {
        Err(Fail::new("another answer"))
    }
}

/// Dials a peer, and fails where the exchange comes to something else.
fn expect_peer(rt: &HostRuntime, peer: &Peer) -> Result<(), Fail> {
    let listener = TcpListener::bind(rt, "127.0.0.1:0")?;
    let target = target_of(rt.alloc(), &listener)?;
    let mut dial = RealDial::make(rt, "/", peer.timeout.map(Duration::from_millis));
    let mut link = dial.dial(&target)?;
    let side = exchanged(&mut link, &listener, peer);
    dial.back(link);
    match side? {
        Some(mut side) => expect_all(rt.alloc(), &mut side, SENT),
        None => Ok(()),
    }
}

/// The address of a listener.
fn target_of(alloc: Global, listener: &TcpListener) -> Result<Target, Fail> {
    let address = listener.local_addr()?;
    let address = format!(in alloc; "{address}")?;
    Ok(Target::Address(Seq::from_slice(alloc, address.as_bytes())?))
}

#[test]
fn exchanges_go_over_loopback(rt: HostRuntime) -> Result<(), Fail> {
    for peer in PEERS {
        expect_peer(&rt, peer)?;
    }
    Ok(())
}

/// What can't be reached: addresses, and children of no program.
const UNREACHED: &[(bool, &[u8])] = &[
    // Nobody listens, no address, no port, and no text.
    (false, b"127.0.0.1:1"),
    (false, b""),
    (false, b"127.0.0.1"),
    (false, b"\xff"),
    (true, b"s"),
];

/// Whether a dial of a child or of an address fails.
fn has_failed(dial: &mut RealDial<HostRuntime>, is_child: bool, word: Seq<u8>) -> bool {
    let target = if is_child {
        Target::Child(word)
    } else {
        Target::Address(word)
    };
    matches!(&dial.dial(&target), Err(DialStop::Failed))
}

#[test]
fn what_cannot_be_reached_is_a_fault(rt: HostRuntime) -> Result<(), Fail> {
    let mut dial = RealDial::make(&rt, "/no such program", None);
    for (is_child, word) in UNREACHED {
        let target = Seq::from_slice(rt.alloc(), word)?;
        expect(has_failed(&mut dial, *is_child, target), "it is reached")?;
    }
    Ok(())
}
