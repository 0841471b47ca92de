// Why a batch isn't admitted or divided.

use crate::sequence::Seq;

/// Why a batch is refused, with the positions that say where.
#[derive(Drop)]
pub enum Refusal {
    /// Data that depends on remote results through local code would be sent to the remote: the chain from a remote call,
    /// through what writes, to what would be sent.
    Flow(Seq<u32>),
    /// Something that isn't known when the batch begins would be sent to the remote.
    NotConstant(u32),
    /// A remote operation stands under a local condition: the condition, and the operation.
    UnderLocalCondition(u32, u32),
    /// A remote object or rows would leave the remote part.
    Escapes(u32),
    /// A batch stands in another.
    BatchInside(u32),
    /// A remote operation stands in a `try`.
    InTry(u32),
    /// A `var` would hold a remote object or rows.
    RemoteVar(u32),
    /// A batch with more than 255 inputs: the batch, and how many it has.
    TooManyInputs(u32, u32),
    /// A batch whose script's code has more than 4,194,304 bytes: the batch, and how many it has.
    ScriptTooLarge(u32, u64),
}
