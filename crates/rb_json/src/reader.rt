// Reading JSON values in the order of their numbers.

ghost use Rattle.std.specs.Prelude.{◌≡◌, ◌+◌, ◌<◌, ◌^◌, IfOk, OnOk};
ghost use Rattle.rb_trees.specs.Outcome.{Gives};
ghost use Rattle.serde_json.specs.View.{view};
ghost use Rattle.rb_json.specs.Counts.{count};
ghost use Rattle.rb_json.specs.Values.{number_at, unary_at, binary_at, kind_at, truth_at};
ghost use Rattle.rb_json.specs.Stops.{wrong};

use crate::stops::ReadStop;
use rb_trees::{BinOp, Memory, UnOp};
use serde_json::Value;
use std::alloc::Global;

/// Reads the values of a request one after another, and knows the number of the next one.
#[derive(Drop)]
pub(crate) struct Reader {
    pub(crate) alloc: Global,
    pub(crate) place: u32,
}

impl Reader {
    /// The number of the next value, which is behind then. A request has fewer values than bytes, so none of them lacks a number.
    pub(crate) fn take(&mut self) -> Result<u32, Memory>
        ensures { IfOk result (λ place. (place ≡ self.old.place) × (self.new.place ≡ self.old.place + 1)) }
    {
        let place = self.place;
        if place == u32::MAX {
            return Err(Memory);
        }
        self.place = place + 1;
        Ok(place)
    }

    /// Passes over so many values.
    pub(crate) fn skip(&mut self, count: u32) -> Result<(), Memory>
        ensures { OnOk result (self.new.place ≡ self.old.place + count) }
    {
        let Some(place) = self.place.checked_add(count) else {
            return Err(Memory);
        };
        self.place = place;
        Ok(())
    }

    /// A whole number below a bound.
    #[tactic(auto, using(crate::proofs::Looks::numbers))]
    fn number(&mut self, bound: u64, value: &Value) -> Result<u64, ReadStop>
        ensures reads { Gives (λ n. n) wrong result (number_at bound self.old.place (view value.now)) }
        ensures below { IfOk result (λ n. n < bound) }
        ensures next { OnOk result (self.new.place ≡ self.old.place + count (view value.now)) }
    {
        let place = self.take()?;
        match value.as_u64() {
            Some(n) => {
                if n < bound {
                    Ok(n)
                } else {
                    Err(ReadStop::WrongForm(place))
                }
            }
            None => Err(ReadStop::WrongForm(place)),
        }
    }

    /// A whole number of 32 bits.
    pub(crate) fn number32(&mut self, value: &Value) -> Result<u32, ReadStop>
        ensures reads { Gives (λ n. n) wrong result (number_at (2 ^ 32) self.old.place (view value.now)) }
        ensures next { OnOk result (self.new.place ≡ self.old.place + count (view value.now)) }
    {
        Ok(self.number(4_294_967_296, value)? as u32)
    }

    /// A whole number of 8 bits.
    pub(crate) fn number8(&mut self, value: &Value) -> Result<u8, ReadStop>
        ensures reads { Gives (λ n. n) wrong result (number_at (2 ^ 8) self.old.place (view value.now)) }
        ensures next { OnOk result (self.new.place ≡ self.old.place + count (view value.now)) }
    {
        Ok(self.number(256, value)? as u8)
    }

    /// The number of a kind of calls.
    pub(crate) fn kind(&mut self, value: &Value) -> Result<u8, ReadStop>
        ensures reads { Gives (λ n. n) wrong result (kind_at self.old.place (view value.now)) }
        ensures next { OnOk result (self.new.place ≡ self.old.place + count (view value.now)) }
    {
        Ok(self.number(9, value)? as u8)
    }

    /// An operator on one operand, by its code.
    pub(crate) fn unary_op(&mut self, value: &Value) -> Result<UnOp, ReadStop>
        ensures reads { Gives (λ op. op) wrong result (unary_at self.old.place (view value.now)) }
        ensures next { OnOk result (self.new.place ≡ self.old.place + count (view value.now)) }
    {
        let place = self.place;
        match self.number(5, value)? {
            1 => Ok(UnOp::Not),
            2 => Ok(UnOp::Neg),
            3 => Ok(UnOp::Len),
            4 => Ok(UnOp::Str),
            _ => Err(ReadStop::WrongForm(place)),
        }
    }

    /// An operator between two operands, by its code.
    pub(crate) fn binary_op(&mut self, value: &Value) -> Result<BinOp, ReadStop>
        ensures reads { Gives (λ op. op) wrong result (binary_at self.old.place (view value.now)) }
        ensures next { OnOk result (self.new.place ≡ self.old.place + count (view value.now)) }
    {
        let place = self.place;
        match self.number(14, value)? {
            1 => Ok(BinOp::Add),
            2 => Ok(BinOp::Sub),
            3 => Ok(BinOp::Mul),
            4 => Ok(BinOp::Div),
            5 => Ok(BinOp::Rem),
            6 => Ok(BinOp::Eq),
            7 => Ok(BinOp::Ne),
            8 => Ok(BinOp::Lt),
            9 => Ok(BinOp::Le),
            10 => Ok(BinOp::Gt),
            11 => Ok(BinOp::Ge),
            12 => Ok(BinOp::And),
            13 => Ok(BinOp::Or),
            _ => Err(ReadStop::WrongForm(place)),
        }
    }

    /// A truth value.
    #[tactic(auto, using(crate::proofs::Looks::truths))]
    pub(crate) fn truth(&mut self, value: &Value) -> Result<bool, ReadStop>
        ensures reads { Gives (λ b. b) wrong result (truth_at self.old.place (view value.now)) }
        ensures next { OnOk result (self.new.place ≡ self.old.place + count (view value.now)) }
    {
        let place = self.take()?;
        match value.as_bool() {
            Some(truth) => Ok(truth),
            None => Err(ReadStop::WrongForm(place)),
        }
    }
}
