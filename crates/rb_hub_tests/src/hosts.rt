// Hosts that are read from texts.

ghost use Rattle.std.specs.Prelude.{IfOk};
ghost use Rattle.rb_session.specs.Answering.{IsTypedHost};

use crate::expected::{NO_MEMORY, Told, told};
use rb_code::classes_differ;
use rb_exec::Host;
use rb_store::{print_table, read_service};
use rb_trees::StoreError;
use std::alloc::Global;

/// A service of one class, whose one method gives a number.
pub const NUMBER: &[u8] = b"class D { fun n(): Int { return 7; } } object 0: D { } root 0;";

/// The lines of its table.
pub const NUMBER_TABLE: &[u8] = b"object 0: D { }\n";

/// A service of one class, whose one method gives how often it was called so far.
pub const COUNTER: &[u8] =
    b"class D { c: Int; fun n(): Int { this.c = this.c + 1; return this.c; } } object 0: D { c = 0; } root 0;";

/// The host of a service's text.
pub fn host_of(alloc: Global, text: &[u8]) -> Result<Host, &'static str>
    ensures { IfOk result IsTypedHost }
{
    match read_service(alloc, text) {
        Ok((service, table)) => match classes_differ(alloc, service.classes.as_slice()) {
            Ok(true) => match Host::make(alloc, service, table) {
                Ok(host) => Ok(host),
                Err(_) => Err(NO_MEMORY),
            },
            Ok(false) => Err("two classes or methods have one name"),
            Err(_) => Err(NO_MEMORY),
        },
        Err(StoreError::Memory) => Err(NO_MEMORY),
        Err(_) => Err("the text has no service"),
    }
}

/// Says what goes otherwise in the lines of a host's table.
pub fn lines_told(alloc: Global, host: &Host, want: &[u8]) -> Told {
    match print_table(alloc, host.table()) {
        Ok(lines) => told(lines.as_slice() == want, "another table"),
        Err(_) => Err(NO_MEMORY),
    }
}
