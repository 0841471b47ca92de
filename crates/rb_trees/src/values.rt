// Values and faults.

use crate::sequence::{Seq, Word};
use crate::shared::Shared;

/// A value of running code. Texts and lists are shared, so that a copy costs nothing.
#[derive(Drop)]
pub enum Value {
    Unit,
    /// A 64-bit two's complement number.
    Int(i64),
    Bool(bool),
    /// UTF-8 of at most 4,096 bytes.
    Text(Shared<Word>),
    /// An immutable list of at most 10,000 values.
    List(Shared<Seq<Value>>),
    /// An object of the own side's heap, by its number.
    Ref(u32),
    /// An object of the service's table as the client sees it, by its number.
    Remote(u32),
    /// A list of the service as the client sees it.
    Rows(Shared<Seq<Value>>),
}

/// Why code ended early: one of the [`fault_codes`](crate::fault_codes), and a text that is empty but where code threw it.
#[derive(Drop)]
pub struct Fault {
    pub code: u8,
    pub text: Word,
}
