// Sums of words, bytes and scripts, which depend on their order.

use rb_trees::{BinOp, Invocation, Operands, SExpr, Script, Seq, Step, StepForm, UnOp, Value};

/// A sum of words.
#[derive(Clone, Copy)]
pub struct Sum {
    value: u32,
}

fn unary_code(op: UnOp) -> u32 {
    match op {
        UnOp::Not => 1,
        UnOp::Neg => 2,
        UnOp::Len => 3,
        UnOp::Str => 4,
    }
}

fn binary_code(op: BinOp) -> u32 {
    match op {
        BinOp::Add => 1,
        BinOp::Sub => 2,
        BinOp::Mul => 3,
        BinOp::Div => 4,
        BinOp::Rem => 5,
        BinOp::Eq => 6,
        BinOp::Ne => 7,
        BinOp::Lt => 8,
        BinOp::Le => 9,
        BinOp::Gt => 10,
        BinOp::Ge => 11,
        BinOp::And => 12,
        BinOp::Or => 13,
    }
}

impl Sum {
    /// The sum of nothing.
    pub fn new() -> Sum {
        Sum { value: 0 }
    }

    /// The sum so far.
    pub fn value(&self) -> u32 {
        self.value
    }

    /// Adds a word.
    pub fn add(&mut self, word: u32) {
        self.value = (self.value ^ word).wrapping_mul(16_777_619);
    }

    /// Adds two words.
    fn add_two(&mut self, first: u32, second: u32) {
        self.add(first);
        self.add(second);
    }

    /// Adds bytes.
    pub fn add_bytes(&mut self, bytes: &[u8]) {
        for byte in bytes {
            self.add(u32::from(*byte));
        }
    }

    /// Adds a value that is no list.
    fn add_single(&mut self, value: &Value) {
        match value {
            Value::Int(number) => self.add_bytes(&number.to_be_bytes()),
            Value::Bool(truth) => self.add(u32::from(*truth)),
            Value::Text(text) => self.add_bytes(text.get().as_slice()),
            _ => self.add(99),
        }
    }

    fn add_value(&mut self, value: &Value) {
        match value {
            Value::List(items) => {
                self.add(97);
                for item in items.get().as_slice() {
                    self.add(98);
                    self.add_single(item);
                }
            }
            _ => self.add_single(value),
        }
    }

    #[cycle(exprs)]
    fn add_expr(&mut self, expr: &SExpr) {
        match expr {
            SExpr::Lit(value) => self.add_value(value.get()),
            SExpr::Input(number) => self.add_two(100, u32::from(*number)),
            SExpr::Var(number) => self.add_two(101, *number),
            SExpr::Root => self.add(102),
            SExpr::Unary(op, at, operand) => {
                self.add_two(unary_code(*op), *at);
                self.add_expr(operand.get());
            }
            SExpr::Binary(op, at, operands) => {
                let Operands { left, right } = operands.get();
                self.add_two(binary_code(*op), *at);
                self.add_expr(left);
                self.add_expr(right);
            }
            SExpr::Call { kind, at, call } => {
                let Invocation {
                    method,
                    target,
                    args,
                } = call.get();
                self.add_two(*at, u32::from(*kind));
                self.add_bytes(method.get().as_slice());
                self.add_expr(target);
                self.add_exprs(args);
            }
        }
    }

    #[cycle(exprs)]
    fn add_exprs(&mut self, exprs: &Seq<SExpr>) {
        for expr in exprs.as_slice() {
            self.add(103);
            self.add_expr(expr);
        }
    }

    #[cycle(steps)]
    fn add_step(&mut self, step: &Step) {
        self.add_two(step.id, step.at);
        match &step.form {
            StepForm::Do(expr) => self.add_expr(expr),
            StepForm::Keep(expr) => {
                self.add(104);
                self.add_expr(expr);
            }
            StepForm::Let { var, keep, value } => {
                self.add_two(*var, u32::from(*keep));
                self.add_expr(value);
            }
            StepForm::If(condition, yes, no) => {
                self.add_expr(condition);
                self.add_steps(yes);
                self.add_steps(no);
            }
            StepForm::Each {
                var,
                keep,
                rows,
                body,
            } => {
                self.add_two(*var, u32::from(*keep));
                self.add_expr(rows);
                self.add_steps(body);
            }
            StepForm::Over { var, input, body } => {
                self.add(107);
                self.add_two(*var, u32::from(*input));
                self.add_steps(body);
            }
        }
    }

    #[cycle(steps)]
    fn add_steps(&mut self, steps: &Seq<Step>) {
        self.add(105);
        for step in steps.as_slice() {
            self.add_step(step);
        }
        self.add(106);
    }

    /// Adds a script with the values of its inputs.
    pub fn add_script(&mut self, script: &Script, values: &Seq<Value>) {
        self.add(u32::from(script.inputs));
        for list in script.lists.as_slice() {
            self.add(u32::from(*list));
        }
        for value in values.as_slice() {
            self.add_value(value);
        }
        self.add_steps(&script.body);
    }
}
