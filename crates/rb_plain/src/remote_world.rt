// Remote calls of a program, and the evaluation of remote expressions.

ghost use Rattle.std.specs.Prelude.{◌≡◌, OnOk};
ghost use Rattle.rb_meaning_code.specs.Faults as faults;
ghost use Rattle.rb_meaning_code.specs.Faults.{raised, raised_remotely};
ghost use Rattle.rb_meaning.specs.Changes.{all_changed};
ghost use Rattle.rb_plain.specs.BatchRuns.{SetsTable};
ghost use Rattle.rb_plain.specs.Remote.{Ended, IsAnswered, SameStage, as_unit, call_meant, turn_meant, value_meant};

use crate::stage::Stage;
use rb_changes::apply_all;
use rb_engine::{Frame, Halt, Miss, RunResult, Server, State, World, eval, missed};
use rb_heap::Heap;
use rb_trees::{Change, Expr, Fault, Memory, Raised, Seq, Value, fault_codes};
use std::alloc::Global;

/// The service that a program's remote calls are performed on. As a World it surrounds remote expressions alone: a remote
/// call is performed, a turn over rows takes a unit of remote fuel, and all else faults Kind. It never cuts a run off.
#[derive(Drop)]
pub struct RemoteWorld<'a> {
    pub alloc: Global,
    pub stage: Stage<'a>,
    pub server: Server,
}

// A fault with a code and without a text, at a position.
fn raise(alloc: Global, code: u8, at: u32, remote: bool) -> Raised
    ensures { result ≡ record { fault = faults.plain_fault code; at = at; remote = remote } }
{
    Raised {
        fault: Fault {
            code,
            text: Seq::new(alloc),
        },
        at,
        remote,
    }
}

impl<'a> RemoteWorld<'a> {
    /// The service with this table, without fuel.
    pub fn new(alloc: Global, stage: Stage<'a>, table: Heap) -> RemoteWorld<'a>
        ensures stage { result.stage ≡ stage.entry }
        ensures server { result.server ≡ record { table = table; fuel = 0 } }
    {
        RemoteWorld {
            alloc,
            stage,
            server: Server::new(table),
        }
    }

    /// Applies changes by others to the table.
    pub fn change(&mut self, changes: &[Change]) -> Result<(), Memory>
        ensures { OnOk result (SetsTable (all_changed changes.now self.old.server.table) self.old self.new) }
    {
        let mut table = self.server.replace_table(Heap::make(self.alloc));
        let applied = apply_all(&mut table, changes);
        let _empty = self.server.replace_table(table);
        applied
    }

    /// The fault Kind at a position.
    pub fn refuse(&self, at: u32) -> Raised
        ensures { result ≡ raised faults.kind at }
    {
        raise(self.alloc, fault_codes::KIND, at, false)
    }

    /// The fault at a position that a batch would take too many items along.
    pub fn too_large(&self, at: u32) -> Raised
        ensures { result ≡ raised faults.input_too_large at }
    {
        raise(self.alloc, fault_codes::INPUT_TOO_LARGE, at, false)
    }

    // The fault that no fuel is left, of a remote operation at a position.
    fn no_fuel(&self, at: u32) -> Raised
        ensures { result ≡ raised_remotely faults.fuel_used at }
    {
        raise(self.alloc, fault_codes::FUEL_USED, at, true)
    }

    /// Takes a unit of remote fuel, which is due at a position.
    pub fn take_unit(&mut self, at: u32) -> Result<(), Raised>
        ensures answer { (as_unit result ≡ (turn_meant self.old at).0) × (self.new.server ≡ (turn_meant self.old at).1) }
        ensures stage { SameStage self.old self.new }
    {
        if self.server.take_unit() {
            return Ok(());
        }
        Err(self.no_fuel(at))
    }

    /// A remote call, whose result has to be of the kind by the call's type.
    pub fn call(
        &mut self,
        at: u32,
        target: Value,
        method: &[u8],
        args: Seq<Value>,
    ) -> Result<Result<Value, Raised>, Memory>
        ensures answer { IsAnswered (call_meant self.old at target method.now args) result self.new }
        ensures stage { SameStage self.old self.new }
    {
        let kind = self.stage.typed().call_kind(at).number();
        let service = self.stage.service();
        match self.server.invoke(
            self.alloc,
            service,
            at,
            kind,
            &target,
            method,
            args.as_slice(),
        ) {
            Ok(value) => Ok(Ok(value)),
            Err(Miss::Fault(at, fault)) => Ok(Err(Raised {
                fault: fault.into_inner(),
                at,
                remote: true,
            })),
            Err(Miss::Memory) => Err(Memory),
        }
    }
}

impl<'a> World for RemoteWorld<'a> {
    ghost use Rattle.rb_plain.specs.Remote.{remote_answers, remote_performs};

    type Stop = Memory;

    ghost answers = { remote_answers };

    ghost performs = { remote_performs };

    fn line(&mut self, _at: u32, _bytes: &[u8]) -> RunResult<(), Memory> {
        Ok(Err(self.refuse(0)))
    }

    fn batch(&mut self, at: u32, _state: &mut State, _frame: &mut Frame) -> RunResult<(), Memory> {
        Ok(Err(self.refuse(at)))
    }

    fn taken(&mut self, _step: u32) -> RunResult<Value, Memory> {
        Ok(Err(self.refuse(0)))
    }

    fn invoke(
        &mut self,
        at: u32,
        target: Value,
        method: &[u8],
        args: Seq<Value>,
    ) -> RunResult<Value, Memory> {
        match self.call(at, target, method, args) {
            Ok(answer) => Ok(answer),
            Err(Memory) => Err(Halt::Memory),
        }
    }

    fn turn(&mut self, at: u32) -> RunResult<(), Memory> {
        Ok(self.take_unit(at))
    }

    fn list_turn(&mut self, _at: u32) -> RunResult<(), Memory> {
        Ok(Err(self.refuse(0)))
    }
}

/// The value of a remote expression where these names are in scope: `value_of`.
#[inline(never)]
pub fn value_of(
    alloc: Global,
    world: &mut RemoteWorld<'_>,
    frame: &Frame,
    expr: &Expr,
) -> Result<Value, Miss>
    ensures { Ended (value_meant world.old.stage expr.now frame.now world.old.server) result world.old world.new }
{
    let code = world.stage.code();
    let mut state = State {
        heap: Heap::make(alloc),
        fuel: 0,
        depth: 0,
    };
    match eval(alloc, code, &mut state, frame, world, expr) {
        Ok(Ok(value)) => Ok(value),
        Ok(Err(raised)) => Err(missed(alloc, raised.at, raised.fault)),
        Err(_) => Err(Miss::Memory),
    }
}
