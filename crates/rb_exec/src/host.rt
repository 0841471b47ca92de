// A service with its table, and the run of a script on it.

ghost use Rattle.std.specs.Prelude.{◌≡◌, ◌++◌, map, IfOk, OnOk, OnErr};
ghost use Rattle.rb_trees.specs.mirror.Declarations.{mirror_class};
ghost use Rattle.rb_trees.specs.mirror.Forests.{mirror_node};
ghost use Rattle.rb_meaning_bytes.specs.formats.ForestBytes.{forest_bytes, FormedForest};
ghost use Rattle.rb_meaning_bytes.specs.formats.Values.{version_byte};
ghost use Rattle.rb_meaning.specs.Changes.{changed};
ghost use Rattle.rb_wire_fields.specs.Buffers.{Keeps};
ghost use Rattle.rb_code.specs.Differ.{ClassesDiffer};
ghost use Rattle.rb_exec.specs.Hosts.{forest_of, script_run};
ghost use Rattle.rb_exec.specs.Stages.{body_run};

use crate::nodes::put_tag;
use crate::run::Run;
use crate::stage::Stage;
use crate::variables::Variables;
use bytes::BytesMut;
use rb_changes::apply;
use rb_code::Code;
use rb_engine::Server;
use rb_heap::Heap;
use rb_meaning_bytes::{each_forest_has_one_spelling, forests_have_a_version};
use rb_trees::{Change, Memory, Node, Script, Seq, Service, Step, Value, Version};
use rb_wire_forest::decode_forest;
use std::alloc::Global;
use std::marker::Model;
use std::mem;

/// The units of fuel of a script: `batch_fuel`.
const BATCH_FUEL: u64 = 1_000_000;

/// A service with its table of objects. Contracts see both.
#[derive(Drop)]
pub struct Host {
    code: Code,
    root: u32,
    server: Server,
}

impl Model for Host {
    ghost use Rattle.rb_exec.specs.Codes.{host_code};
    ghost use Rattle.rb_exec.specs.Hosted.{Hosted};

    ghost Value = { Hosted };

    ghost coded = { host_code };

    ghost view = { λ h. record { service = record { classes = h.code; root = h.root }; table = h.server.table } };
}

impl Host {
    /// The host of a service and its table. The names of its classes have to differ, and those of each one's methods. Its
    /// error is want of memory.
    pub fn make(alloc: Global, service: Service, table: Heap) -> Result<Host, Memory>
        requires { ClassesDiffer (map mirror_class service.classes) }
        ensures { IfOk result (λ host. host ≡ record { service = service; table = table }) }
    {
        let code = Code::make(alloc, &service.classes)?;
        Ok(Host {
            code,
            root: service.root,
            server: Server::new(table),
        })
    }

    /// The table.
    pub fn table(&self) -> &Heap
        ensures { result.now ≡ self.now.table }
    {
        self.server.table()
    }

    /// Applies a change by others to the table: `changed`. The service stays. The error is want of memory, after which nothing
    /// changed.
    pub fn change(&mut self, alloc: Global, change: &Change) -> Result<(), Memory>
        ensures table { OnOk result (self.new.table ≡ changed change.now self.old.table) }
        ensures unchanged { OnErr result (self.new ≡ self.old) }
        ensures service { self.new.service ≡ self.old.service }
    {
        let mut table = self.server.replace_table(Heap::make(alloc));
        let applied = apply(&mut table, change);
        let _empty = self.server.replace_table(table);
        applied
    }
}

/// Runs a script with the values of its inputs, and appends the forest that it gives, in a version of the wire.
///
/// The forest's root and the table are what the script means there (`script_run`), whatever its tree and its inputs are; each
/// fault is in the node. The service stays. The error is want of memory, after which the buffer is as it was, and nothing is
/// said of the table.
pub fn run_onto(
    alloc: Global,
    host: &mut Host,
    script: &Script,
    inputs: &[Value],
    version: Version,
    bytes: &mut BytesMut,
) -> Result<(), Memory>
    ensures forest { OnOk result (bytes.new.items ≡ bytes.old.items ++ forest_of version host.old script.now inputs.now) }
    ensures table { OnOk result (host.new.table ≡ (script_run host.old script.now inputs.now).server.table) }
    ensures service { host.new.service ≡ host.old.service }
    ensures unchanged { OnErr result (bytes.new.items ≡ bytes.old.items) }
{
    host.server.refuel(BATCH_FUEL);
    let stage = Stage {
        alloc,
        code: &host.code,
        root: host.root,
        inputs,
        version,
    };
    let len = bytes.len();
    if let Err(want) = run_body(&stage, &mut host.server, &script.body, bytes) {
        bytes.truncate(len);
        return Err(want);
    }
    Ok(())
}

/// The same onto a list of bytes, of which nothing is said either after want of memory.
pub fn run_into(
    alloc: Global,
    host: &mut Host,
    script: &Script,
    inputs: &[Value],
    version: Version,
    out: &mut Seq<u8>,
) -> Result<(), Memory>
    ensures forest { OnOk result (out.new ≡ out.old ++ forest_of version host.old script.now inputs.now) }
    ensures table { OnOk result (host.new.table ≡ (script_run host.old script.now inputs.now).server.table) }
    ensures service { host.new.service ≡ host.old.service }
{
    let before = mem::replace(out, Seq::new(alloc));
    let mut bytes = BytesMut::from_vec(before.into_vec());
    let ran = run_onto(alloc, host, script, inputs, version, &mut bytes);
    let after = bytes.into_vec()?;
    *out = Seq::from_vec(after);
    ran
}

/// Runs a script with the values of its inputs, and reads the forest that it gives.
///
/// The node and the table are what the script means there, where that node has a spelling; each fault is in the node. The
/// service stays. The error is want of memory, after which nothing is said of the table.
pub fn run_script(
    alloc: Global,
    host: &mut Host,
    script: &Script,
    inputs: &[Value],
) -> Result<Node, Memory>
    requires { FormedForest (script_run host.old script.now inputs.now).node }
    ensures node { IfOk result (λ node. mirror_node node ≡ (script_run host.old script.now inputs.now).node) }
    ensures table { OnOk result (host.new.table ≡ (script_run host.old script.now inputs.now).server.table) }
    ensures service { host.new.service ≡ host.old.service }
{
    each_forest_has_one_spelling();
    forests_have_a_version();
    let mut bytes = Seq::new(alloc);
    run_into(alloc, host, script, inputs, Version::Two, &mut bytes)?;
    match decode_forest(alloc, bytes.as_slice()) {
        Ok(node) => Ok(node),
        Err(_) => Err(Memory),
    }
}

// The byte with which a forest of a version begins.
fn first_byte(version: Version) -> u8
    ensures { result ≡ version_byte version }
{
    match version {
        Version::One => 1,
        Version::Two => 2,
    }
}

// Appends the forest of the body of a script, which begins without variables. The run has the server and the buffer until its
// end.
#[inline(never)]
#[tactic(auto, using(rb_wire_fields::proofs::Kept::kept))]
fn run_body(
    stage: &Stage<'_>,
    server: &mut Server,
    body: &Seq<Step>,
    bytes: &mut BytesMut,
) -> Result<(), Memory>
    ensures forest { let ran = body_run stage.now body.now server.old in
        OnOk result (bytes.new.items ≡ bytes.old.items ++ forest_bytes stage.now.version ran.node) }
    ensures server { OnOk result (server.new ≡ (body_run stage.now body.now server.old).server) }
    ensures kept { OnErr result (Keeps bytes.old.items bytes.new.items) }
{
    put_tag(first_byte(stage.version), bytes)?;
    let mut run = Run {
        server: mem::replace(server, Server::new(Heap::make(stage.alloc))),
        variables: Variables::new(stage.alloc),
        bytes: mem::replace(bytes, BytesMut::new(stage.alloc)),
    };
    let ran = run.run_block(stage, 0, None, body);
    let Run {
        server: left,
        variables: _,
        bytes: written,
    } = run;
    *server = left;
    *bytes = written;
    match ran {
        Ok(_) => Ok(()),
        Err(_) => Err(Memory),
    }
}
