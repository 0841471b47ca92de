// Connections over TCP.

ghost use Rattle.std.specs.Prelude.{◌≡◌, IfOk};

use crate::real_sink::RealSink;
use crate::real_source::RealSource;
use std::alloc::Global;
use std::io::{self, ErrorKind};
use std::net::{Net, TcpListener, TcpStream, ToSocketAddrs};
use std::time::Duration;

/// The two ends of a new connection, over which a small piece goes out at once. Where a timeout is given, a read fails to which
/// the peer sends nothing for so long, and a write of which it takes nothing.
pub fn ends_of(
    alloc: Global,
    stream: TcpStream,
    timeout: Option<Duration>,
) -> io::Result<(RealSource, RealSink)>
    ensures source { IfOk result (λ ends. ends.0 ≡ 0) }
    ensures sink { IfOk result (λ ends. ends.1 ≡ 0) }
{
    // Where the delay can't be turned off, small pieces are only late.
    let _ = stream.set_nodelay(true);
    // Both ends have the timeouts, since they are the socket's.
    stream.set_read_timeout(timeout)?;
    stream.set_write_timeout(timeout)?;
    let source = RealSource::of_stream(alloc, stream.try_clone()?)?;
    Ok((source, RealSink::to_stream(stream)))
}

/// A new connection to an address. Where a timeout is given, each place that the address stands for has so long to answer.
pub fn connect<R: Net<Listener = TcpListener, Stream = TcpStream>>(
    net: &R,
    address: &str,
    timeout: Option<Duration>,
) -> io::Result<TcpStream> {
    let Some(timeout) = timeout else {
        return TcpStream::connect(net, address);
    };
    let mut last = io::Error::from(ErrorKind::InvalidInput);
    for place in address.to_socket_addrs(net)? {
        match TcpStream::connect_timeout(net, &place, timeout) {
            Ok(stream) => return Ok(stream),
            Err(error) => last = error,
        }
    }
    Err(last)
}
