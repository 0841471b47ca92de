// The host that is served, and the request that its tests send.

ghost use Rattle.std.specs.Prelude.{IfOk};
ghost use Rattle.rb_session.specs.Answering.{IsTypedHost};

use rb_code::classes_differ;
use rb_exec::Host;
use rb_store::read_service;
use std::alloc::Global;
use std::test::Fail;

/// A service of one class, whose one method gives a number.
const NUMBER: &[u8] = b"class D { fun n(): Int { return 7; } } object 0: D { } root 0;";

/// The payload of a request that calls that method.
pub const CALL: &[u8] =
    b"\x01\x00\x00\x00\x00\x01\x11\x00\x00\x00\x00\x00\x00\x00\x3b\x26\x00\x00\x00\x3b\x01\x00\x00\x00\x01n\x23\x00\x00\x00\x00";

/// The host of that service.
pub fn number_host(alloc: Global) -> Result<Host, Fail>
    ensures { IfOk result IsTypedHost }
{
    let (service, table) = read_service(alloc, NUMBER)?;
    if classes_differ(alloc, service.classes.as_slice())? {
        return Ok(Host::make(alloc, service, table)?);
    }
    Err(Fail::new("two classes or methods have one name"))
}
