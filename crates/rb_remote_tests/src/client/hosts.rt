// Hosts that are read from texts.

ghost use Rattle.std.specs.Prelude.{◌≡◌, IfOk, OnOk, map};
ghost use Rattle.rb_trees.specs.mirror.Declarations.{mirror_class};
ghost use Rattle.rb_code.specs.Differ.{ClassesDiffer};
ghost use Rattle.rb_session.specs.Answering.{IsTypedHost};

use rb_code::{Code, classes_differ};
use rb_exec::Host;
use rb_session::FailingLink;
use rb_store::read_service;
use rb_trees::{Seq, Service};
use std::alloc::Global;
use std::test::Fail;

/// A directory of two files.
pub const FILES: &str =
    "class File { name: Text; size: Int; fun name(): Text { return this.name; } fun size(): Int { return this.size; } fun grow(by: Int) { this.size = this.size + by; } fun check(max: Int) { if (this.size > max) { throw \"Big\"; } } fun rename(to: Text) { this.name = to; } }
class Dir { list: List<File>; fun files(): List<File> { return this.list; } fun file(i: Int): File { return this.list[i]; } fun burn(n: Int) { var i = 0; while (i < n) { i = i + 1; } } fun sizes(): List<Int> { return List<Int>(10, 200); } }
object 0: Dir { list = [#1, #2]; }
object 1: File { name = \"a\"; size = 10; }
object 2: File { name = \"bb\"; size = 200; }
root 0;";

/// Fails where two classes of a service, or two methods of one class, have one name.
fn names_differ(alloc: Global, service: &Service) -> Result<(), Fail>
    ensures { OnOk result (ClassesDiffer (map mirror_class service.now.classes)) }
{
    if classes_differ(alloc, service.classes.as_slice())? {
        return Ok(());
    }
    Err(Fail::new("two classes or methods have one name"))
}

/// The code of a service's classes.
pub fn code_of(alloc: Global, service: &Service) -> Result<Code, Fail> {
    names_differ(alloc, service)?;
    Ok(Code::make(alloc, &service.classes)?)
}

/// The host of a service's text.
pub fn host_of(alloc: Global, text: &str) -> Result<Host, Fail>
    ensures { IfOk result IsTypedHost }
{
    let (service, table) = read_service(alloc, text.as_bytes())?;
    names_differ(alloc, &service)?;
    Ok(Host::make(alloc, service, table)?)
}

/// A link to a server of a service's text, of which the exchanges of these numbers fail.
pub fn failing_link(alloc: Global, text: &str, exchanges: &[u64]) -> Result<FailingLink, Fail>
    ensures { IfOk result (λ link. link.faults ≡ 0) }
{
    let failing = Seq::from_slice(alloc, exchanges)?;
    Ok(FailingLink::make(alloc, host_of(alloc, text)?, failing)?)
}
