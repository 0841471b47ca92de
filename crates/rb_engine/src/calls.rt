// Calls of methods of the own side.

ghost use Rattle.rb_trees.specs.declared.values.Value.TheVariants as value;
ghost use Rattle.rb_engine.specs.Code.{call_run, found_run, body_run};
ghost use Rattle.rb_engine.specs.Ends.{flattened};
ghost use Rattle.rb_engine.specs.Methods.{IsMethod};
ghost use Rattle.rb_engine.specs.Machines.{EvaluatesAnywhere, Keeps, Performs};

use crate::args::Args;
use crate::ends::{End, lift, step_of};
use crate::frame::Frame;
use crate::machine::Machine;
use crate::objects::{called_method, enter};
use crate::units::{check_depth, check_unit};
use crate::world::{Halt, RunResult, World};
use rb_trees::{Body, Method, Seq, Value};

impl<'a, W: World> Machine<'a, W> {
    /// A call of a method of the own side.
    #[cycle(running)]
    #[inline(never)]
    pub fn call_method(
        &mut self,
        at: u32,
        receiver: &Value,
        name: &[u8],
        args: Args,
    ) -> Result<Value, End<W::Stop>>
        ensures runs { let meant = call_run self.old.code.now at receiver.now name.now args in
            EvaluatesAnywhere W.World meant self.old result self.new }
        ensures same { Keeps self.old self.new }
    {
        let method = lift(
            at,
            called_method(
                self.alloc,
                self.code,
                &self.state.heap,
                receiver,
                name,
                args.len(),
            ),
        )?;
        self.run_call(at, receiver, method, args)
    }

    /// A call of a method of the own side that was found, by the receiver's class and a name.
    #[cycle(running)]
    #[inline]
    pub fn run_call(
        &mut self,
        at: u32,
        receiver: &Value,
        method: &Method,
        args: Args,
    ) -> Result<Value, End<W::Stop>>
        requires { IsMethod self.old.code.now method.now }
        ensures runs { let meant = found_run self.old.code.now at method.now receiver.now args in
            EvaluatesAnywhere W.World meant self.old result self.new }
        ensures same { Keeps self.old self.new }
    {
        lift(at, check_unit(self.alloc, self.state.fuel))?;
        self.state.fuel -= 1;
        lift(at, check_depth(self.alloc, self.state.depth))?;
        let mut frame = enter(
            self.alloc,
            receiver,
            method.signature.params.as_slice(),
            args,
        )?;
        self.state.depth += 1;
        let result = self.run_body(&mut frame, &method.body);
        self.state.depth -= 1;
        result
    }

    // A method's body: its statements, then its value.
    #[cycle(running)]
    #[inline(never)]
    fn run_body(&mut self, frame: &mut Frame, body: &Body) -> Result<Value, End<W::Stop>>
        ensures runs { let meant = body_run self.old.code.now body.now in
            Performs W.World meant self.old frame.old result self.new frame.new }
        ensures same { Keeps self.old self.new }
    {
        self.run_all(frame, body.statements.as_slice())?;
        match &body.result {
            Some(expr) => self.value_of(frame, expr),
            None => Ok(Value::Unit),
        }
    }

    /// A call of a method of an own object.
    pub fn call_own(
        &mut self,
        at: u32,
        object: u32,
        name: &[u8],
        args: Seq<Value>,
    ) -> RunResult<Value, W::Stop>
        ensures runs { let meant = call_run self.old.code.now at (value.Ref object) name.now args in
            EvaluatesAnywhere W.World meant self.old (flattened result) self.new }
        ensures same { Keeps self.old self.new }
    {
        let receiver = Value::Ref(object);
        let Ok(args) = Args::of(self.alloc, args) else {
            return Err(Halt::Memory);
        };
        step_of(self.call_method(at, &receiver, name, args))
    }

    /// A call of a method that was found of an own object.
    pub fn call_own_found(
        &mut self,
        at: u32,
        object: u32,
        method: &Method,
        args: Seq<Value>,
    ) -> RunResult<Value, W::Stop>
        requires { IsMethod self.old.code.now method.now }
        ensures runs { let meant = found_run self.old.code.now at method.now (value.Ref object) args in
            EvaluatesAnywhere W.World meant self.old (flattened result) self.new }
        ensures same { Keeps self.old self.new }
    {
        let receiver = Value::Ref(object);
        let Ok(args) = Args::of(self.alloc, args) else {
            return Err(Halt::Memory);
        };
        step_of(self.run_call(at, &receiver, method, args))
    }
}
