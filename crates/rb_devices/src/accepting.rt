// Connections that come to a listener.

ghost use Rattle.std.specs.Prelude.{◌≡◌, IfSome};

use crate::connections::ends_of;
use crate::real_sink::RealSink;
use crate::real_source::RealSource;
use std::io::{self, ErrorKind};
use std::net::{SocketAddr, TcpListener};
use std::rt::Clock;
use std::time::Duration;

/// The numbers by which the system says that a descriptor is none, that it doesn't listen, and that it is no socket.
const ENDED: [i32; 3] = [9, 22, 88];

/// The two ends of the next connection, and its peer; None where the listener listens no more.
///
/// A connection that can't be taken is passed over, and standard error says why. Then a second goes by before the next one is
/// taken, so that a want that lasts, as of descriptors, takes no processor. One that was aborted costs no such pause.
pub fn accept<R: Clock + Eprint + AllocGlobal>(
    runtime: &R,
    listener: &TcpListener,
    timeout: Option<Duration>,
) -> Option<(RealSource, RealSink, SocketAddr)>
    ensures source { IfSome result (λ taken. taken.0 ≡ 0) }
    ensures sink { IfSome result (λ taken. taken.1 ≡ 0) }
{
    for _ in 0..u64::MAX {
        match listener.accept() {
            Ok((stream, peer)) => match ends_of(runtime.alloc(), stream, timeout) {
                Ok((source, sink)) => return Some((source, sink, peer)),
                Err(error) => pass_over(runtime, &error),
            },
            Err(error) if has_ended(&error) => return None,
            Err(error) => pass_over(runtime, &error),
        }
    }
    None
}

/// Whether a listener whose next connection was refused so listens no more. The system's other errors are those of one
/// connection, or of a want that may end.
fn has_ended(error: &io::Error) -> bool {
    match error.raw_os_error() {
        Some(number) => ENDED.contains(&number),
        None => false,
    }
}

/// Says why a connection isn't taken, and waits a little.
fn pass_over<R: Clock + Eprint>(runtime: &R, error: &io::Error) {
    let _ = eprintln!(runtime; "rbi: a connection can't be taken: {error}");
    if error.kind() != ErrorKind::ConnectionAborted {
        runtime.sleep(Duration::from_secs(1));
    }
}
