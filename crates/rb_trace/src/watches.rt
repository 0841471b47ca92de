// Who watches exchanges.

ghost use Rattle.std.specs.Prelude.{◌≤◌, length};
ghost use Rattle.rb_meaning.specs.Answers.{longest_request};

use rb_base::{LinkStop, Reply};
use std::time::Instant;

/// Who watches the exchanges over links.
///
/// A watch sees each request before it is sent, and then what came of it. It is told of both, and can change neither.
pub trait Watch {
    /// Sees the payload of a request that is sent next, and the number of that exchange over its link, from 1. The answer is when
    /// the exchange begins, where there is a clock.
    fn before(&self, number: u64, request: &[u8]) -> Option<Instant>
        requires { length request.now ≤ longest_request };

    /// Sees what came of that request, whose exchange began then.
    fn after(&self, began: Option<Instant>, answer: &Result<Reply, LinkStop>);
}
