// Evaluates expressions, each form as its definition says.
//
// One function of the machine's stack stands for each node that is open, so each form has a function of its own, whose
// locals are few and small, and which isn't inlined into the next.

ghost use Rattle.rb_engine.specs.Code.{value_run, unary_run, binary_run, field_run, item_run, new_run, list_run, called_run, values_run};
ghost use Rattle.rb_engine.specs.Machines.{Evaluates, Keeps};

use crate::args::{Args, add_arg, room_for};
use crate::conditions::is_remote;
use crate::ends::{End, lift};
use crate::frame::Frame;
use crate::machine::Machine;
use crate::names::{add, copied, named_value, this_value};
use crate::objects::{construct, read_field};
use crate::operand::{Operand, lent};
use crate::operators::on_one;
use crate::pairs::{by_left, item_of, list_of, on_two};
use crate::world::World;
use rb_trees::{BinOp, Expr, ExprForm, Seq, UnOp, Value, Word};

impl<'a, W: World> Machine<'a, W> {
    /// The value of an expression. It only chooses the form, so it takes no place of its own on the machine's stack.
    #[cycle(running)]
    #[inline(always)]
    pub fn value_of(&mut self, frame: &Frame, expr: &Expr) -> Result<Value, End<W::Stop>>
        ensures runs { let meant = value_run self.old.code.now expr.now in
            Evaluates W.World meant frame.now self.old result self.new }
        ensures same { Keeps self.old self.new }
    {
        let at = expr.at;
        match &expr.form {
            ExprForm::Lit(value) => copied(value),
            ExprForm::Name(name) => named_value(self.alloc, frame, at, name),
            ExprForm::This => this_value(self.alloc, frame, at),
            ExprForm::Unary(op, a) => self.unary_value(frame, at, *op, a.get()),
            ExprForm::Binary(op, a, b) => { self.binary_value(frame, at, *op, a.get(), b.get()) }
            ExprForm::Field(a, name) => { self.field_value(frame, at, a.get(), name) }
            ExprForm::Call(receiver, name, args) => {
                self.called_value(frame, at, receiver.get(), name, args)
            }
            ExprForm::Index(a, b) => { self.item_value(frame, at, a.get(), b.get()) }
            ExprForm::New(name, args) => self.new_value(frame, at, name, args),
            ExprForm::Items(_, items) => self.list_value(frame, at, items),
            ExprForm::Taken(step) => self.taken(*step),
        }
    }

    /// The value of an operand: lent where it stands already, and evaluated otherwise.
    #[cycle(running)]
    #[inline(always)]
    pub fn operand_of<'f>(
        &mut self,
        frame: &'f Frame,
        expr: &'f Expr,
    ) -> Result<Operand<'f>, End<W::Stop>>
        ensures runs { let meant = value_run self.old.code.now expr.now in
            Evaluates W.World meant frame.now self.old result self.new }
        ensures same { Keeps self.old self.new }
    {
        match lent(frame, expr) {
            Some(value) => Ok(Operand::lent(value)),
            None => {
                let value = self.value_of(frame, expr)?;
                Ok(Operand::made(value))
            }
        }
    }

    // The value of an operator on one operand.
    #[cycle(running)]
    #[inline(never)]
    fn unary_value(
        &mut self,
        frame: &Frame,
        at: u32,
        op: UnOp,
        a: &Expr,
    ) -> Result<Value, End<W::Stop>>
        ensures runs { let meant = unary_run self.old.code.now at op a.now in
            Evaluates W.World meant frame.now self.old result self.new }
        ensures same { Keeps self.old self.new }
    {
        let value = self.operand_of(frame, a)?;
        lift(at, on_one(self.alloc, op, value.get()))
    }

    /// The value of an operator on two operands, where the left one may decide.
    #[cycle(running)]
    #[inline(always)]
    pub fn operator_value(
        &mut self,
        frame: &Frame,
        at: u32,
        op: BinOp,
        a: &Expr,
        b: &Expr,
    ) -> Result<Value, End<W::Stop>>
        ensures runs { let meant = binary_run self.old.code.now at op a.now b.now in
            Evaluates W.World meant frame.now self.old result self.new }
        ensures same { Keeps self.old self.new }
    {
        let left = self.operand_of(frame, a)?;
        let decided = lift(at, by_left(self.alloc, op, left.get()))?;
        match decided {
            Some(value) => Ok(value),
            None => {
                let right = self.operand_of(frame, b)?;
                lift(at, on_two(self.alloc, op, left.get(), right.get()))
            }
        }
    }

    // The same, with a place of its own on the machine's stack.
    #[cycle(running)]
    #[inline(never)]
    fn binary_value(
        &mut self,
        frame: &Frame,
        at: u32,
        op: BinOp,
        a: &Expr,
        b: &Expr,
    ) -> Result<Value, End<W::Stop>>
        ensures runs { let meant = binary_run self.old.code.now at op a.now b.now in
            Evaluates W.World meant frame.now self.old result self.new }
        ensures same { Keeps self.old self.new }
    {
        self.operator_value(frame, at, op, a, b)
    }

    // The value of a field.
    #[cycle(running)]
    #[inline(never)]
    fn field_value(
        &mut self,
        frame: &Frame,
        at: u32,
        a: &Expr,
        name: &Word,
    ) -> Result<Value, End<W::Stop>>
        ensures runs { let meant = field_run self.old.code.now at a.now name.now in
            Evaluates W.World meant frame.now self.old result self.new }
        ensures same { Keeps self.old self.new }
    {
        let object = self.operand_of(frame, a)?;
        lift(
            at,
            read_field(self.alloc, &self.state.heap, object.get(), name.as_slice()),
        )
    }

    // An item of a list.
    #[cycle(running)]
    #[inline(never)]
    fn item_value(
        &mut self,
        frame: &Frame,
        at: u32,
        a: &Expr,
        b: &Expr,
    ) -> Result<Value, End<W::Stop>>
        ensures runs { let meant = item_run self.old.code.now at a.now b.now in
            Evaluates W.World meant frame.now self.old result self.new }
        ensures same { Keeps self.old self.new }
    {
        let list = self.operand_of(frame, a)?;
        let index = self.operand_of(frame, b)?;
        lift(at, item_of(self.alloc, list.get(), index.get()))
    }

    // A new object.
    #[cycle(running)]
    #[inline(never)]
    fn new_value(
        &mut self,
        frame: &Frame,
        at: u32,
        name: &Word,
        args: &Seq<Expr>,
    ) -> Result<Value, End<W::Stop>>
        ensures runs { let meant = new_run self.old.code.now at name.now args.now in
            Evaluates W.World meant frame.now self.old result self.new }
        ensures same { Keeps self.old self.new }
    {
        let fields = self.values_of(frame, args.as_slice())?;
        lift(
            at,
            construct(self.alloc, self.code, &mut self.state.heap, name, fields),
        )
    }

    // A list by its items.
    #[cycle(running)]
    #[inline(never)]
    fn list_value(
        &mut self,
        frame: &Frame,
        at: u32,
        items: &Seq<Expr>,
    ) -> Result<Value, End<W::Stop>>
        ensures runs { let meant = list_run self.old.code.now at items.now in
            Evaluates W.World meant frame.now self.old result self.new }
        ensures same { Keeps self.old self.new }
    {
        let values = self.values_of(frame, items.as_slice())?;
        lift(at, list_of(self.alloc, values))
    }

    // The value of a call: the World performs it where the receiver is remote.
    #[cycle(running)]
    #[inline(never)]
    fn called_value(
        &mut self,
        frame: &Frame,
        at: u32,
        receiver: &Expr,
        name: &Word,
        args: &Seq<Expr>,
    ) -> Result<Value, End<W::Stop>>
        ensures runs { let meant = called_run self.old.code.now at receiver.now name.now args.now in
            Evaluates W.World meant frame.now self.old result self.new }
        ensures same { Keeps self.old self.new }
    {
        let target = self.operand_of(frame, receiver)?;
        if is_remote(target.get()) {
            let values = self.values_of(frame, args.as_slice())?;
            return self.invoke(at, target.get(), name.as_slice(), values);
        }
        let values = self.args_of(frame, args.as_slice())?;
        self.call_method(at, target.get(), name.as_slice(), values)
    }

    // The values of arguments from left to right, where a frame will have them.
    #[cycle(running)]
    #[inline(never)]
    fn args_of(&mut self, frame: &Frame, exprs: &[Expr]) -> Result<Args, End<W::Stop>>
        ensures runs { let meant = values_run self.old.code.now exprs.now in
            Evaluates W.World meant frame.now self.old result self.new }
        ensures same { Keeps self.old self.new }
    {
        let mut values = room_for(self.alloc, exprs.len())?;
        'exprs: for expr in exprs {
            let value = self.value_of(frame, expr)?;
            add_arg(self.alloc, &mut values, value)?;
        }
        Ok(values)
    }

    // The values of expressions from left to right.
    #[cycle(running)]
    #[inline(never)]
    fn values_of(&mut self, frame: &Frame, exprs: &[Expr]) -> Result<Seq<Value>, End<W::Stop>>
        ensures runs { let meant = values_run self.old.code.now exprs.now in
            Evaluates W.World meant frame.now self.old result self.new }
        ensures same { Keeps self.old self.new }
    {
        let mut values = Seq::new(self.alloc);
        'exprs: for expr in exprs {
            let value = self.value_of(frame, expr)?;
            add(&mut values, value)?;
        }
        Ok(values)
    }
}
