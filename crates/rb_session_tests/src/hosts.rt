// Hosts that are read from texts.

ghost use Rattle.std.specs.Prelude.{IfOk};
ghost use Rattle.rb_trees.specs.mirror.Services.{mirror_service};
ghost use Rattle.rb_meaning.specs.Links.{IsTyped};
ghost use Rattle.rb_session.specs.Answering.{IsTypedHost};

use crate::expected::{NO_MEMORY, Told, told};
use rb_code::classes_differ;
use rb_exec::Host;
use rb_heap::Heap;
use rb_store::{print_table, read_service};
use rb_trees::{Service, StoreError};
use std::alloc::Global;

/// A service of one class, whose one method gives a number.
pub const NUMBER: &[u8] = b"class D { fun n(): Int { return 7; } } object 0: D { } root 0;";

/// The lines of its table.
pub const NUMBER_TABLE: &[u8] = b"object 0: D { }\n";

/// A directory with two files, which can grow.
pub const FILES: &[u8] =
    b"class File { name: Text; size: Int; fun name(): Text { return this.name; } fun size(): Int { return this.size; } fun grow(by: Int) { this.size = this.size + by; } }
class Dir { list: List<File>; fun files(): List<File> { return this.list; } fun file(i: Int): File { return this.list[i]; } }
object 0: Dir { list = [#1, #2]; }
object 1: File { name = \"a\"; size = 10; }
object 2: File { name = \"bb\"; size = 200; }
root 0;";

/// The lines of its table.
pub const FILES_TABLE: &[u8] = b"object 0: Dir { list = [#1, #2]; }
object 1: File { name = \"a\"; size = 10; }
object 2: File { name = \"bb\"; size = 200; }
";

/// How many bytes the payload of a request may have.
pub const LONGEST_REQUEST: usize = 16_777_216;

/// The payload of a request that calls the method that gives a number.
pub const CALL: &[u8] =
    b"\x01\x00\x00\x00\x00\x01\x11\x00\x00\x00\x00\x00\x00\x00\x3b\x26\x00\x00\x00\x3b\x01\x00\x00\x00\x01n\x23\x00\x00\x00\x00";

/// The payload of the reply to it.
pub const CALL_REPLY: &[u8] = b"\x01\x00\x00\x00\x01\x31\x01\x00\x00\x00\x00\x00\x00\x00\x07\x00";

/// The same request in version 2.
pub const SHORT_CALL: &[u8] = b"\x02\x01\x01n\x00\x01\x11\x00\x3b\x26\x3b\x01\x00\x23\x00";

/// The payload of the reply to it.
pub const SHORT_CALL_REPLY: &[u8] = b"\x02\x00\x00\x00\x01\x31\x01\x0e\x00";

/// The host of a service's text.
pub fn host_of(alloc: Global, source: &[u8]) -> Result<Host, &'static str>
    ensures { IfOk result IsTypedHost }
{
    match read_service(alloc, source) {
        Ok((service, table)) => host_over(alloc, service, table),
        Err(StoreError::Memory) => Err(NO_MEMORY),
        Err(_) => Err("the text has no service"),
    }
}

/// The host of a service and its table.
fn host_over(alloc: Global, service: Service, table: Heap) -> Result<Host, &'static str>
    requires { IsTyped (mirror_service service) table }
    ensures { IfOk result IsTypedHost }
{
    match classes_differ(alloc, service.classes.as_slice()) {
        Ok(true) => match Host::make(alloc, service, table) {
            Ok(host) => Ok(host),
            Err(_) => Err(NO_MEMORY),
        },
        Ok(false) => Err("two classes or methods have one name"),
        Err(_) => Err(NO_MEMORY),
    }
}

/// Says what goes otherwise in the lines of a table.
pub fn lines_told(alloc: Global, table: &Heap, want: &[u8]) -> Told {
    match print_table(alloc, table) {
        Ok(lines) => told(lines.as_slice() == want, "another table"),
        Err(_) => Err(NO_MEMORY),
    }
}
