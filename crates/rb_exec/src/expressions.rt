// The values of a script's expressions.
//
// One function of the machine's stack stands for each node that is open, so each form has a function of its own, whose
// locals are few and small, and which isn't inlined into the next.

ghost use Rattle.rb_engine.specs.Misses.{Replied};
ghost use Rattle.rb_exec.specs.Stages.{value_run, values_run, unary_run, binary_run, call_run};

use crate::lent::lent;
use crate::rules::{input, variable};
use crate::stage::Site;
use crate::variables::Variables;
use rb_engine::{Miss, Operand, Server, at_place, by_left, on_one, on_two};
use rb_trees::{BinOp, Invocation, Operands, SExpr, Seq, UnOp, Value, copy_value};

/// What the expressions of a step see: where the step stands, and the variables.
#[derive(Clone, Copy)]
pub struct Scope<'a> {
    pub site: Site<'a>,
    pub variables: &'a Variables,
}

impl Scope<'_> {
    /// The value of an expression. It only chooses the form, so it takes no place of its own on the machine's stack.
    #[cycle(evaluating)]
    #[inline(always)]
    pub fn value_of(&self, server: &mut Server, expr: &SExpr) -> Result<Value, Miss>
        ensures { Replied (value_run self.now expr.now server.old) result server.new }
    {
        let stage = self.site.stage;
        let at = self.site.at;
        match expr {
            SExpr::Lit(value) => Ok(copy_value(value.get())?),
            SExpr::Input(number) => at_place(at, input(stage.alloc, stage.inputs, *number)),
            SExpr::Var(number) => at_place(at, variable(stage.alloc, self.variables, *number)),
            SExpr::Root => Ok(Value::Remote(stage.root)),
            SExpr::Unary(op, place, a) => self.unary_value(server, *op, *place, a.get()),
            SExpr::Binary(op, place, operands) => {
                self.binary_value(server, *op, *place, operands.get())
            }
            SExpr::Call {
                at: place,
                kind,
                call,
            } => self.call_value(server, *place, *kind, call.get()),
        }
    }

    /// The value of a condition. Most conditions are comparisons, so an operator on two operands is evaluated in place.
    #[inline(always)]
    pub fn condition_of(&self, server: &mut Server, expr: &SExpr) -> Result<Value, Miss>
        ensures { Replied (value_run self.now expr.now server.old) result server.new }
    {
        match expr {
            SExpr::Binary(op, place, operands) => {
                self.operator_value(server, *op, *place, operands.get())
            }
            _ => self.value_of(server, expr),
        }
    }

    // The value of an operand: lent where it stands already, and evaluated otherwise.
    #[cycle(evaluating)]
    #[inline(always)]
    fn operand_of<'o>(&'o self, server: &mut Server, expr: &'o SExpr) -> Result<Operand<'o>, Miss>
        ensures { Replied (value_run self.now expr.now server.old) result server.new }
    {
        match lent(self, expr) {
            Some(value) => Ok(Operand::lent(value)),
            None => {
                let value = self.value_of(server, expr)?;
                Ok(Operand::made(value))
            }
        }
    }

    // The value of an operator on one operand.
    #[cycle(evaluating)]
    #[inline(never)]
    fn unary_value(
        &self,
        server: &mut Server,
        op: UnOp,
        place: u32,
        a: &SExpr,
    ) -> Result<Value, Miss>
        ensures { Replied (unary_run self.now op place a.now server.old) result server.new }
    {
        let value = (&*self).operand_of(server, a)?;
        at_place(place, on_one(self.site.stage.alloc, op, value.get()))
    }

    // The value of an operator on two operands, where the left one may decide.
    #[cycle(evaluating)]
    #[inline(always)]
    fn operator_value(
        &self,
        server: &mut Server,
        op: BinOp,
        place: u32,
        operands: &Operands<SExpr>,
    ) -> Result<Value, Miss>
        ensures { Replied (binary_run self.now op place operands.now server.old) result server.new }
    {
        let alloc = self.site.stage.alloc;
        let left = (&*self).operand_of(server, &operands.left)?;
        let decided = at_place(place, by_left(alloc, op, left.get()))?;
        match decided {
            Some(value) => Ok(value),
            None => {
                let right = (&*self).operand_of(server, &operands.right)?;
                at_place(place, on_two(alloc, op, left.get(), right.get()))
            }
        }
    }

    // The same, with a place of its own on the machine's stack.
    #[cycle(evaluating)]
    #[inline(never)]
    fn binary_value(
        &self,
        server: &mut Server,
        op: BinOp,
        place: u32,
        operands: &Operands<SExpr>,
    ) -> Result<Value, Miss>
        ensures { Replied (binary_run self.now op place operands.now server.old) result server.new }
    {
        self.operator_value(server, op, place, operands)
    }

    // The value of a remote call.
    #[cycle(evaluating)]
    #[inline(never)]
    fn call_value(
        &self,
        server: &mut Server,
        place: u32,
        kind: u8,
        call: &Invocation<SExpr>,
    ) -> Result<Value, Miss>
        ensures { Replied (call_run self.now place kind call.now server.old) result server.new }
    {
        let stage = self.site.stage;
        let receiver = (&*self).operand_of(server, &call.target)?;
        let values = self.values_of(server, call.args.as_slice())?;
        server.invoke(
            stage.alloc,
            stage.code,
            place,
            kind,
            receiver.get(),
            call.method.get().as_slice(),
            values.as_slice(),
        )
    }

    // The values of expressions from left to right.
    #[cycle(evaluating)]
    #[inline(always)]
    fn values_of(&self, server: &mut Server, exprs: &[SExpr]) -> Result<Seq<Value>, Miss>
        ensures { Replied (values_run self.now exprs.now server.old) result server.new }
    {
        let mut values = Seq::new(self.site.stage.alloc);
        'exprs: for expr in exprs {
            let value = self.value_of(server, expr)?;
            values.push(value)?;
        }
        Ok(values)
    }
}
