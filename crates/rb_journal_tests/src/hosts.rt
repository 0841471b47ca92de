// A host whose table shows how many requests were performed.

ghost use Rattle.std.specs.Prelude.{IfOk};
ghost use Rattle.rb_session.specs.Answering.{IsTypedHost};

use rb_code::classes_differ;
use rb_exec::Host;
use rb_store::{print_table, read_service};
use rb_trees::Word;
use std::alloc::Global;
use std::test::Fail;

/// A counter, which goes up by one.
const COUNTER: &[u8] =
    b"class Counter { count: Int; fun up() { this.count = this.count + 1; } } object 0: Counter { count = 0; } root 0;";

/// The host of the counter at 0.
pub fn counter(alloc: Global) -> Result<Host, Fail>
    ensures { IfOk result IsTypedHost }
{
    let (service, table) = read_service(alloc, COUNTER)?;
    if classes_differ(alloc, service.classes.as_slice())? {
        return Ok(Host::make(alloc, service, table)?);
    }
    Err(Fail::new("two classes or methods have one name"))
}

/// The line of a host's counter.
pub fn line_of(alloc: Global, host: &Host) -> Result<Word, Fail> {
    Ok(print_table(alloc, host.table())?)
}
