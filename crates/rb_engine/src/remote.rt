// Remote calls on a service.

ghost use Rattle.std.specs.Prelude.{◌≡◌, length, map, IfOk};
ghost use Rattle.rb_trees.specs.Outcome.{Gives, known};
ghost use Rattle.rb_trees.specs.declared.values.Value.{out-Value};
ghost use Rattle.rb_trees.specs.mirror.Declarations.{mirror_class, mirror_method, mirror_param};
ghost use Rattle.rb_meaning_code.specs.Faults as faults;
ghost use Rattle.rb_meaning_code.specs.Faults.{raised_remotely};
ghost use Rattle.rb_meaning_code.specs.Remote as rules;
ghost use Rattle.rb_engine.specs.Ends.{fault_of};
ghost use Rattle.rb_engine.specs.Methods.{IsMethod, IsMethodOf};
ghost use Rattle.rb_engine.specs.Remote.{Answers, RepliesAt, server, method_found, arguments_taken, call_checked, found_served, call_invoked};

use crate::accessors::field_given;
use crate::ends::Failure;
use crate::engine::call_found;
use crate::faults::{bad_arguments, kind, no_method, wrong_kind};
use crate::objects::method_of;
use crate::seen::seen_as;
use crate::service::ServiceWorld;
use crate::state::State;
use crate::taken::taken_all;
use crate::world::Halt;
use rb_code::Code;
use rb_heap::Heap;
use rb_trees::{Fault, Memory, Method, Param, Raised, Seq, Value};
use std::alloc::Global;

// The receiver's number, which has to be a remote object's.
#[tactic(auto, using(crate::proofs::Values::values))]
fn remote_object(alloc: Global, target: &Value) -> Result<u32, Failure>
    ensures { Gives (λ object. object) fault_of result (known faults.kind (rules.remote_object (out-Value target.now))) }
{
    match target {
        Value::Remote(object) => Ok(*object),
        _ => Err(kind(alloc)),
    }
}

// The method of an object, which has to be there.
fn found_method<'a>(
    alloc: Global,
    code: &'a Code,
    heap: &Heap,
    object: u32,
    name: &[u8],
) -> Result<&'a Method, Failure>
    ensures gives { Gives (λ m. mirror_method m.now) fault_of result (method_found code.now heap.now object name.now) }
    ensures found { IfOk result (λ m. IsMethodOf code.now heap.now object name.now m.now) }
{
    match method_of(code, heap, object, name) {
        Some(method) => Ok(method),
        None => Err(no_method(alloc)),
    }
}

// The arguments as the service sees them, which have to fit.
#[inline(always)]
fn fitting(
    alloc: Global,
    heap: &Heap,
    params: &[Param],
    args: &[Value],
) -> Result<Seq<Value>, Failure>
    ensures gives { Gives (λ values. values) fault_of result (arguments_taken heap.now params.now args.now) }
    ensures count { IfOk result (λ values. length params.now ≡ length values) }
{
    match taken_all(alloc, heap, params, args)? {
        Some(values) => Ok(values),
        None => Err(bad_arguments(alloc)),
    }
}

// A call that passed its checks.
#[derive(Drop)]
struct Checked<'a> {
    object: u32,
    method: &'a Method,
    // as the service sees them
    args: Seq<Value>,
}

// What is checked before a call: `checked`. It gives the method too, and as many arguments as that has parameters.
#[inline(always)]
fn check<'a>(
    alloc: Global,
    code: &'a Code,
    heap: &Heap,
    target: &Value,
    name: &[u8],
    args: &[Value],
) -> Result<Checked<'a>, Failure>
    ensures gives { Gives (λ c. (c.object, c.args)) fault_of result (call_checked code.now heap.now target.now name.now args.now) }
    ensures found { IfOk result (λ c. IsMethodOf code.now heap.now c.object name.now c.method.now) }
    ensures count { IfOk result (λ c. length c.method.now.signature.params ≡ length c.args) }
{
    let object = remote_object(alloc, target)?;
    let method = found_method(alloc, code, heap, object, name)?;
    let values = fitting(alloc, heap, method.signature.params.as_slice(), args)?;
    Ok(Checked {
        object,
        method,
        args: values,
    })
}

// A fault of a remote operation at a position.
fn remotely(at: u32, fault: Fault) -> Raised
    ensures { result ≡ raised_remotely fault at }
{
    Raised {
        fault,
        at,
        remote: true,
    }
}

// What a rule gives, as the answer of a remote call.
#[inline(always)]
fn answered(at: u32, outcome: Result<Value, Failure>) -> Result<Result<Value, Raised>, Memory>
    ensures { Answers at outcome result }
{
    match outcome {
        Ok(value) => Ok(Ok(value)),
        Err(Failure::Fault(fault)) => Ok(Err(remotely(at, fault.into_fault()))),
        Err(Failure::Memory) => Err(Memory),
    }
}

// The result of a body at the client, which has to be of the kind.
#[inline(always)]
fn at_client(alloc: Global, kind: u8, value: &Value) -> Result<Value, Failure>
    ensures { Gives (λ v. v) fault_of result (known faults.wrong_kind (rules.seen_as kind (out-Value value.now))) }
{
    match seen_as(alloc, kind, value)? {
        Some(seen) => Ok(seen),
        None => Err(wrong_kind(alloc)),
    }
}

// A call that passed its checks, and its result at the client: `served` and `returned`.
#[inline(never)]
fn perform(
    alloc: Global,
    code: &Code,
    state: &mut State,
    at: u32,
    kind: u8,
    checked: Checked<'_>,
) -> Result<Result<Value, Raised>, Memory>
    requires idle { state.old.depth ≡ 0 }
    requires found { IsMethod code.now checked.method.now }
    ensures replies { let call = checked.entry in
        let reply = found_served code.now at kind call.object call.method.now call.args (server state.old) in
        RepliesAt at reply result (server state.new) }
    ensures depth { state.new.depth ≡ 0 }
{
    let Checked {
        object,
        method,
        args,
    } = checked;
    let mut world = ServiceWorld::new(alloc);
    match call_found(alloc, code, state, &mut world, at, object, method, args) {
        Ok(Ok(value)) => answered(at, at_client(alloc, kind, &value)),
        Ok(Err(raised)) => Ok(Err(remotely(at, raised.fault))),
        Err(Halt::Memory) => Err(Memory),
        Err(Halt::World(stop)) => Err(stop),
    }
}

// The same, where a method that only reads a field isn't run.
#[inline(always)]
fn serve(
    alloc: Global,
    code: &Code,
    state: &mut State,
    at: u32,
    kind: u8,
    checked: Checked<'_>,
) -> Result<Result<Value, Raised>, Memory>
    requires idle { state.old.depth ≡ 0 }
    requires found { IsMethod code.now checked.method.now }
    ensures replies { let call = checked.entry in
        let reply = found_served code.now at kind call.object call.method.now call.args (server state.old) in
        RepliesAt at reply result (server state.new) }
    ensures depth { state.new.depth ≡ 0 }
{
    if state.fuel > 0 {
        if let Some(value) = field_given(&state.heap, checked.object, &checked.method.body) {
            let seen = at_client(alloc, kind, value);
            state.fuel -= 1;
            return answered(at, seen);
        }
    }
    perform(alloc, code, state, at, kind, checked)
}

/// A remote call on a service, whose receiver and arguments are read where they stand: `invoke`. The error is want of memory,
/// after which nothing is said of the table and the fuel.
#[inline(always)]
pub fn invoke_on(
    alloc: Global,
    code: &Code,
    state: &mut State,
    at: u32,
    kind: u8,
    target: &Value,
    method: &[u8],
    args: &[Value],
) -> Result<Result<Value, Raised>, Memory>
    requires { state.old.depth ≡ 0 }
    ensures replies { let reply = call_invoked code.now at kind target.now method.now args.now (server state.old) in
        RepliesAt at reply result (server state.new) }
    ensures depth { state.new.depth ≡ 0 }
{
    match check(alloc, code, &state.heap, target, method, args) {
        Ok(checked) => serve(alloc, code, state, at, kind, checked),
        Err(Failure::Fault(fault)) => Ok(Err(remotely(at, fault.into_fault()))),
        Err(Failure::Memory) => Err(Memory),
    }
}

/// A remote call on a service, at a position: `invoke`.
///
/// The receiver, the arguments and the answer are values as the client sees them; the state has the service's table and
/// the fuel, and no call is active in it, before and after. It goes on in this order: the receiver is remote (Kind), the
/// object is there and has the method (NoMethod), the arguments fit (BadArguments), a unit of fuel, the body, the result is
/// of the kind of this number (WrongKind). Each fault stands at the position, and is remote; what was done before it stays.
/// The error is want of memory, after which nothing is said of the table and the fuel.
pub fn invoke(
    alloc: Global,
    code: &Code,
    state: &mut State,
    at: u32,
    kind: u8,
    target: Value,
    method: &[u8],
    args: Seq<Value>,
) -> Result<Result<Value, Raised>, Memory>
    requires { state.old.depth ≡ 0 }
    ensures replies { RepliesAt at (call_invoked code.now at kind target method.now args (server state.old)) result (server state.new) }
    ensures depth { state.new.depth ≡ 0 }
{
    invoke_on(
        alloc,
        code,
        state,
        at,
        kind,
        &target,
        method,
        args.as_slice(),
    )
}
