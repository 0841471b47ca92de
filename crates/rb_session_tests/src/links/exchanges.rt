// Exchanges over links.

use crate::expected::{NO_MEMORY, Told, told};
use crate::hosts::LONGEST_REQUEST;
use rb_base::{Link, LinkStop, Reply};

/// What an exchange comes to.
#[derive(Clone, Copy)]
pub enum Outcome {
    /// A reply of this kind.
    Reply(u8),
    /// A fault of the link.
    Failed,
    /// The end of the reply behind so many bytes.
    Cut(u64),
    /// A wrong byte at this place.
    Frame(u64),
}

/// An exchange: the payload of a request, what it comes to, and the bytes that are kept, of a reply its payload.
pub type Exchanged<'a> = (&'a [u8], Outcome, &'a [u8]);

/// Says what goes otherwise in an answer.
fn answer_told(answer: &Result<Reply, LinkStop>, want: Outcome, kept: &[u8]) -> Told {
    let is_wanted = match (answer, want) {
        (Ok(reply), Outcome::Reply(kind)) => {
            reply.kind == kind && reply.payload.as_slice() == kept
        }
        (Err(LinkStop::Cut { got, bytes }), Outcome::Cut(count)) => {
            *got == count && bytes.as_slice() == kept
        }
        (Err(LinkStop::Frame { at, bytes }), Outcome::Frame(place)) => {
            *at == place && bytes.as_slice() == kept
        }
        (Err(LinkStop::Failed), Outcome::Failed) => kept.is_empty(),
        (Err(LinkStop::Memory), _) => return Err(NO_MEMORY),
        _ => false,
    };
    told(is_wanted, "another answer")
}

/// Says what goes otherwise in an exchange over a link.
pub fn exchange_told<L: Link>(link: &mut L, (request, want, kept): &Exchanged<'_>) -> Told {
    if request.len() > LONGEST_REQUEST {
        return Err("the request is too long");
    }
    answer_told(&link.exchange(request), *want, kept)
}
