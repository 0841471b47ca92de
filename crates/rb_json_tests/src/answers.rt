// Requests with their replies.

ghost use Rattle.std.specs.Prelude.{IfOk};
ghost use Rattle.rb_session.specs.Answering.{IsTypedHost};

use crate::requests::expect_refusal;
use rb_code::classes_differ;
use rb_exec::Host;
use rb_json::{JsonRefusal, JsonStop, json_answer};
use rb_store::{print_table, read_service};
use rb_trees::Seq;
use std::alloc::Global;
use std::test::Fail;

/// A service of one class, whose one method gives a number.
const NUMBER: &[u8] = b"class D { fun n(): Int { return 7; } } object 0: D { } root 0;";

/// The lines of its table.
const NUMBER_TABLE: &[u8] = b"object 0: D { }\n";

/// A directory with two files, which can grow.
const FILES: &[u8] =
    b"class File { name: Text; size: Int; fun name(): Text { return this.name; } fun size(): Int { return this.size; } fun grow(by: Int) { this.size = this.size + by; } }
class Dir { list: List<File>; fun files(): List<File> { return this.list; } fun file(i: Int): File { return this.list[i]; } }
object 0: Dir { list = [#1, #2]; }
object 1: File { name = \"a\"; size = 10; }
object 2: File { name = \"bb\"; size = 200; }
root 0;";

/// The lines of its table.
const FILES_TABLE: &[u8] = b"object 0: Dir { list = [#1, #2]; }
object 1: File { name = \"a\"; size = 10; }
object 2: File { name = \"bb\"; size = 200; }
";

/// The same, where the first file has grown by 6.
const GROWN_TABLE: &[u8] = b"object 0: Dir { list = [#1, #2]; }
object 1: File { name = \"a\"; size = 16; }
object 2: File { name = \"bb\"; size = 200; }
";

/// The host of a service's text.
fn host_of(alloc: Global, source: &[u8]) -> Result<Host, Fail>
    ensures { IfOk result IsTypedHost }
{
    let (service, table) = read_service(alloc, source)?;
    if classes_differ(alloc, service.classes.as_slice())? {
        return Ok(Host::make(alloc, service, table)?);
    }
    Err(Fail::new("two classes or methods have one name"))
}

/// Fails where other bytes are found than are wanted.
fn expect_bytes(found: &[u8], want: &[u8]) -> Result<(), Fail> {
    if found == want {
        Ok(())
    } else {
        Err(Fail::new(format_args!("{found:?} in place of {want:?}")))
    }
}

/// Fails where the table has other lines.
fn expect_table(alloc: Global, host: &Host, table: &[u8]) -> Result<(), Fail> {
    expect_bytes(print_table(alloc, host.table())?.as_slice(), table)
}

/// Fails where a host gives a request another reply than this, or has a table with other lines then.
fn expect_reply_by(
    alloc: Global,
    host: &mut Host,
    request: &[u8],
    want: &[u8],
    table: &[u8],
) -> Result<(), Fail>
    requires { IsTypedHost host.old }
{
    if request.len() > 1_048_576 {
        return Err(Fail::new("the request is too long"));
    }
    let mut reply = Seq::new(alloc);
    json_answer(alloc, host, request, &mut reply)?;
    expect_bytes(reply.as_slice(), want)?;
    expect_table(alloc, host, table)
}

/// The same of the host of a text.
fn expect_reply(
    alloc: Global,
    source: &[u8],
    (request, want): (&[u8], &[u8]),
    table: &[u8],
) -> Result<(), Fail> {
    let mut host = host_of(alloc, source)?;
    expect_reply_by(alloc, &mut host, request, want, table)
}

/// Fails at the first request that has another reply than the one beside it, from a host whose method gives a number.
fn expect_replies(alloc: Global, rows: &[(&[u8], &[u8])]) -> Result<(), Fail> {
    for row in rows {
        expect_reply(alloc, NUMBER, *row, NUMBER_TABLE)?;
    }
    Ok(())
}

#[test]
fn a_node_has_its_entries(rt: HostRuntime) -> Result<(), Fail> {
    let rows: &[(&[u8], &[u8])] = &[
        (
            b"{\"inputs\":[],\"steps\":[[\"keep\",0,59,[\"call\",59,1,\"n\",[\"root\"],[]]]]}",
            b"{\"entries\":[[\"value\",7]],\"fault\":null}",
        ),
        (
            b"{\"inputs\":[],\"steps\":[[\"if\",0,0,[\"lit\",true],[[\"keep\",1,0,[\"lit\",\"a\"]]],[]]]}",
            b"{\"entries\":[[\"branch\",true,{\"entries\":[[\"value\",\"a\"]],\"fault\":null}]],\"fault\":null}",
        ),
    ];
    expect_replies(rt.alloc(), rows)
}

#[test]
fn a_script_that_is_not_valid_is_refused(rt: HostRuntime) -> Result<(), Fail> {
    let rows: &[(&[u8], &[u8])] = &[
        (
            b"{\"inputs\":[],\"steps\":[[\"keep\",0,0,[\"var\",5]]]}",
            b"{\"refusal\":[11,0]}",
        ),
        (
            b"{\"inputs\":[],\"steps\":[[\"keep\",3,0,[\"in\",0]]]}",
            b"{\"refusal\":[12,3]}",
        ),
        (
            b"{\"inputs\":[],\"steps\":[[\"do\",4,0,[\"root\"]],[\"do\",4,0,[\"root\"]]]}",
            b"{\"refusal\":[13,4]}",
        ),
        (
            b"{\"inputs\":[[1]],\"steps\":[[\"keep\",0,0,[\"in\",0]]]}",
            b"{\"refusal\":[15,0]}",
        ),
        (
            b"{\"inputs\":[1],\"steps\":[[\"over\",2,0,0,0,[]]]}",
            b"{\"refusal\":[15,2]}",
        ),
    ];
    expect_replies(rt.alloc(), rows)
}

/// Why a host refuses a request, or None where it answers it.
fn refusal_by(alloc: Global, host: &mut Host, request: &[u8]) -> Result<Option<JsonRefusal>, Fail>
    requires { IsTypedHost host.old }
{
    if request.len() > 1_048_576 {
        return Err(Fail::new("the request is too long"));
    }
    let mut reply = Seq::new(alloc);
    match json_answer(alloc, host, request, &mut reply) {
        Ok(()) => Ok(None),
        Err(JsonStop::Refused(refusal)) => Ok(Some(refusal)),
        Err(JsonStop::Memory) => Err(Fail::new("out of memory")),
    }
}

/// Fails where a request is answered otherwise than by this refusal.
fn expect_refused(alloc: Global, request: &[u8], want: JsonRefusal) -> Result<(), Fail> {
    let mut host = host_of(alloc, NUMBER)?;
    let found = refusal_by(alloc, &mut host, request)?;
    expect_refusal(found, Some(want))
}

#[test]
fn a_text_that_is_no_request_has_no_reply(rt: HostRuntime) -> Result<(), Fail> {
    expect_refused(rt.alloc(), b"{", JsonRefusal::NotJson)?;
    let request = b"{\"inputs\":[],\"steps\":[7]}";
    expect_refused(rt.alloc(), request, JsonRefusal::WrongForm(3))
}

#[test]
fn a_fault_stands_in_the_node(rt: HostRuntime) -> Result<(), Fail> {
    let request =
        b"{\"inputs\":[],\"steps\":[[\"do\",0,9,[\"call\",9,4,\"file\",[\"root\"],[[\"lit\",7]]]]]}";
    let want = b"{\"entries\":[],\"fault\":[0,9,2,\"\"]}";
    expect_reply(rt.alloc(), FILES, (request, want), FILES_TABLE)
}

#[test]
fn a_list_input_is_walked(rt: HostRuntime) -> Result<(), Fail> {
    let request =
        b"{\"inputs\":[[1,2,3]],\"steps\":[[\"over\",0,5,0,0,[[\"do\",1,6,[\"call\",7,0,\"grow\",[\"call\",8,4,\"file\",[\"root\"],[[\"lit\",0]]],[[\"var\",0]]]]]]]}";
    let want =
        b"{\"entries\":[[\"rows\",[{\"entries\":[],\"fault\":null},{\"entries\":[],\"fault\":null},{\"entries\":[],\"fault\":null}]]],\"fault\":null}";
    expect_reply(rt.alloc(), FILES, (request, want), GROWN_TABLE)
}
