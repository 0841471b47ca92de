// Sessions over loopback.

ghost use Rattle.rb_session.specs.Answering.{IsTypedHost};

use crate::frames::{RECEIVED, SENT, expect, expect_all};
use crate::hosts::number_host;
use rb_base::{Listen, write_whole};
use rb_devices::RealListen;
use rb_exec::Host;
use rb_session::{ServeCause, ServeStop, Served, serve};
use std::alloc::Global;
use std::io::Write;
use std::net::{Shutdown, TcpListener, TcpStream};
use std::test::Fail;
use std::time::Duration;

/// An address of this machine at which nobody listens.
fn free_address(rt: &HostRuntime) -> Result<String, Fail> {
    let listener = TcpListener::bind(rt, "127.0.0.1:0")?;
    let address = listener.local_addr()?;
    Ok(format!(in rt.alloc(); "{address}")?)
}

/// What a client does behind the request that it sends.
#[derive(Clone, Copy)]
enum Client {
    /// It ends its stream, so its session ends whole.
    Ends,
    /// It stays silent, so a read of its session fails.
    Waits,
}

/// A client that has sent a request.
fn client_of(rt: &HostRuntime, address: &str, client: Client) -> Result<TcpStream, Fail> {
    let mut stream = TcpStream::connect(rt, address)?;
    stream.write_all(SENT)?;
    if let Client::Ends = client {
        stream.shutdown(Shutdown::Write)?;
    }
    Ok(stream)
}

/// Whether a session ended as that of a client does, behind one request.
fn has_ended(answer: &Result<Served, ServeStop>, client: Client) -> bool {
    match (answer, client) {
        (Ok(served), Client::Ends) => served.requests == 1,
        (Err(stop), Client::Waits) => {
            stop.requests == 1 && matches!(stop.cause, ServeCause::ReadFault)
        }
        _ => false,
    }
}

/// Serves the next session on a host, and says whether there is one that ends as that of a client does.
fn is_served(
    alloc: Global,
    host: &mut Host,
    listen: &mut RealListen<HostRuntime>,
    client: Client,
) -> bool
    requires { IsTypedHost host.old }
{
    match listen.next() {
        Ok(Some((mut source, mut sink))) => {
            let answer = serve(alloc, host, &mut source, &mut sink);
            listen.back(source, sink);
            has_ended(&answer, client)
        }
        _ => false,
    }
}

/// Fails where a client that ends its stream doesn't get its reply, or where the next sessions don't end as those of
/// these clients do.
fn expect_served(
    rt: &HostRuntime,
    address: &str,
    listen: &mut RealListen<HostRuntime>,
    clients: &[Client],
) -> Result<(), Fail> {
    let mut stream = client_of(rt, address, Client::Ends)?;
    for client in clients {
        let mut host = number_host(rt.alloc())?;
        if !is_served(rt.alloc(), &mut host, listen, *client) {
            return Err(Fail::new("another end of a session, or none"));
        }
    }
    expect_all(rt.alloc(), &mut stream, RECEIVED)
}

#[test]
fn a_session_over_loopback_is_served(rt: HostRuntime) -> Result<(), Fail> {
    let address = free_address(&rt)?;
    let mut listen = RealListen::make(&rt, rt.stdin(), rt.stdout(), None);
    listen.start(&address)?;
    expect_served(&rt, &address, &mut listen, &[Client::Ends])
}

#[test]
fn a_silent_client_ends_its_session_alone(rt: HostRuntime) -> Result<(), Fail> {
    let address = free_address(&rt)?;
    let timeout = Some(Duration::from_millis(50));
    let mut listen = RealListen::make(&rt, rt.stdin(), rt.stdout(), timeout);
    listen.start(&address)?;
    let _silent = client_of(&rt, &address, Client::Waits)?;
    expect_served(&rt, &address, &mut listen, &[Client::Waits, Client::Ends])
}

/// Whether there is a next session, to which a write of these bytes fails.
fn next_write_fails(listen: &mut RealListen<HostRuntime>, bytes: &[u8]) -> bool {
    match listen.next() {
        Ok(Some((source, mut sink))) => {
            let has_failed = write_whole(&mut sink, bytes).is_err() && sink.faults() == 1;
            listen.back(source, sink);
            has_failed
        }
        _ => false,
    }
}

#[test]
fn a_client_that_takes_nothing_fails_a_write(rt: HostRuntime) -> Result<(), Fail> {
    // More than what the system keeps of a connection.
    let bytes = vec![in rt.alloc(); 0; 33_554_432]?;
    let address = free_address(&rt)?;
    let timeout = Some(Duration::from_millis(50));
    let mut listen = RealListen::make(&rt, rt.stdin(), rt.stdout(), timeout);
    listen.start(&address)?;
    let _client = TcpStream::connect(&rt, address.as_str())?;
    expect(
        next_write_fails(&mut listen, bytes.as_slice()),
        "no session, or a write that doesn't fail",
    )
}

/// Hands the next session out and takes it back at once; whether there is one.
fn passes_one(listen: &mut RealListen<HostRuntime>) -> Result<bool, Fail> {
    match listen.next()? {
        Some((source, sink)) => {
            listen.back(source, sink);
            Ok(true)
        }
        None => Ok(false),
    }
}

#[test]
fn an_address_is_bound_once_and_again_when_its_listener_ended(rt: HostRuntime) -> Result<(), Fail> {
    let address = free_address(&rt)?;
    let mut first = RealListen::make(&rt, rt.stdin(), rt.stdout(), None);
    let mut second = RealListen::make(&rt, rt.stdin(), rt.stdout(), None);
    first.start(&address)?;
    expect(second.start(&address).is_err(), "an address is bound twice")?;
    // The server closes this connection first, so that the system still keeps it for a while.
    let client = TcpStream::connect(&rt, address.as_str())?;
    expect(passes_one(&mut first)?, "no session")?;
    drop(client);
    drop(first);
    second.start(&address)?;
    Ok(())
}

#[test]
fn standard_input_and_output_are_one_session(rt: HostRuntime) -> Result<(), Fail> {
    let mut listen = RealListen::make(&rt, rt.stdin(), rt.stdout(), None);
    expect(listen.next()?.is_none(), "a session before the start")?;
    listen.start("-")?;
    expect(passes_one(&mut listen)?, "no session")?;
    expect(listen.next()?.is_none(), "a second session")
}
