// The service while remote calls on it are performed.

ghost use Rattle.std.specs.Prelude.{◌≡◌, map};
ghost use Rattle.rb_trees.specs.declared.values.Value.{out-Value};
ghost use Rattle.rb_trees.specs.mirror.Declarations.{mirror_class};
ghost use Rattle.rb_meaning_code.specs.Remote as rules;
ghost use Rattle.rb_engine.specs.Misses.{Replied};
ghost use Rattle.rb_engine.specs.Servers.{TakesUnit};

use crate::misses::{Miss, missed};
use crate::remote::invoke_on;
use crate::state::State;
use rb_code::Code;
use rb_heap::Heap;
use rb_trees::Value;
use std::alloc::Global;
use std::marker::Model;
use std::mem;

/// The service's table and the units of fuel that are left. Between remote calls no call of the
/// service is active.
#[derive(Drop)]
pub struct Server {
    state: State,
}

impl Model for Server {
    ghost use Rattle.std.specs.Prelude.{◌≡◌};
    ghost use Rattle.rb_meaning_code.specs.Remote as meant;
    ghost use Rattle.rb_engine.specs.Servers.{server_code};

    ghost Value = { meant.Server };

    ghost coded = { server_code };

    ghost view = { λ s. record { table = s.state.heap; fuel = s.state.fuel } };

    ghost invariant = { λ s. s.state.depth ≡ 0 };
}

impl Server {
    /// The server of a table, without fuel.
    pub fn new(table: Heap) -> Server
        ensures { result ≡ record { table = table; fuel = 0 } }
    {
        Server {
            state: State {
                heap: table,
                fuel: 0,
                depth: 0,
            },
        }
    }

    /// The table.
    pub fn table(&self) -> &Heap
        ensures { result.now ≡ self.now.table }
    {
        &self.state.heap
    }

    /// Gives it another table, and gives back the one that it had.
    pub fn replace_table(&mut self, table: Heap) -> Heap
        ensures before { result ≡ self.old.table }
        ensures after { self.new ≡ record { table = table; fuel = self.old.fuel } }
    {
        mem::replace(&mut self.state.heap, table)
    }

    /// The units of fuel that are left.
    pub fn fuel(&self) -> u64
        ensures { result ≡ self.now.fuel }
    {
        self.state.fuel
    }

    /// Gives it so much fuel.
    pub fn refuel(&mut self, fuel: u64)
        ensures { self.new ≡ record { table = self.old.table; fuel = fuel } }
    {
        self.state.fuel = fuel;
    }

    /// Takes a unit of fuel, or answers that none is left.
    pub fn take_unit(&mut self) -> bool
        ensures { TakesUnit self.old result self.new }
    {
        if self.state.fuel == 0 {
            return false;
        }
        self.state.fuel -= 1;
        true
    }

    /// A remote call: `invoke`. The receiver and the arguments are read where they stand.
    #[inline(never)]
    pub fn invoke(
        &mut self,
        alloc: Global,
        code: &Code,
        at: u32,
        kind: u8,
        target: &Value,
        method: &[u8],
        args: &[Value],
    ) -> Result<Value, Miss>
        ensures { Replied (rules.invoke (map mirror_class code.now) at kind (out-Value target.now) method.now args.now self.old) result self.new }
    {
        match invoke_on(alloc, code, &mut self.state, at, kind, target, method, args) {
            Ok(Ok(value)) => Ok(value),
            Ok(Err(raised)) => Err(missed(alloc, at, raised.fault)),
            Err(_) => Err(Miss::Memory),
        }
    }
}
