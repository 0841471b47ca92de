// Exchanges that links keep.

ghost use Rattle.std.specs.Prelude.{◌≡◌, IfOk};
ghost use Rattle.rb_session.specs.Exchanges.{pair_told};

use rb_trees::{Memory, Seq, Word};
use std::alloc::Global;

/// A copy of a request with its reply: the kind of the reply, and the payloads of both.
#[derive(Drop)]
pub struct Exchange {
    pub request: Word,
    pub kind: u8,
    pub reply: Word,
}

/// A request with its reply, as a link keeps them.
pub fn pair_of(alloc: Global, request: &[u8], kind: u8, reply: &[u8]) -> Result<Exchange, Memory>
    ensures { IfOk result (λ e. pair_told e ≡ record { request = request.now; kind = kind; reply = reply.now }) }
{
    Ok(Exchange {
        request: Seq::from_slice(alloc, request)?,
        kind,
        reply: Seq::from_slice(alloc, reply)?,
    })
}
