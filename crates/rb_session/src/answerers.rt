// Who answers requests.

ghost use Rattle.std.specs.Prelude.{◌≡◌, ◌≤◌, ℕ, List, length, IfOk, IfErr, OnOk, OnErr};
ghost use Rattle.rb_trees.specs.declared.services.Object.{Object};
ghost use Rattle.rb_trees.specs.mirror.Services.{Service};
ghost use Rattle.rb_meaning.specs.Answers.{longest_request};
ghost use Rattle.rb_session.specs.Answering.{AppendsReply};

use crate::answers::answer;
use bytes::BytesMut;
use rb_exec::Host;
use rb_trees::Memory;
use std::alloc::Global;

/// Who answers requests, one at a time, and changes by it.
///
/// Contracts see a service, which stays, and a table. An answer may stop whoever gives it: a relation says which stops may
/// come, and from then on no answer is owed.
pub trait Answers {
    /// Why no more requests are answered.
    type Stop: Drop;

    ghost service: { Self → Service };

    ghost table: { Self → List Object };

    /// It may be asked.
    ghost ready: { Self → Type 0 };

    /// What an answered payload makes of whoever answers, beside the table.
    ghost does: { Self → List ℕ → Self → Type 0 };

    /// A payload may be met by this stop, which leaves whoever answers so.
    ghost stops: { Self → List ℕ → Self.Stop → Self → Type 0 };

    /// Answers a request: appends the reply's payload and answers its kind.
    fn answer_one(
        &mut self,
        alloc: Global,
        payload: &[u8],
        reply: &mut BytesMut,
    ) -> Result<u8, Self::Stop>
        requires size { length payload.now ≤ longest_request }
        requires ready { ready self.old }
        ensures replies { let appends = AppendsReply (service self.old) (table self.old) (table self.new) in
            IfOk result (appends payload.now reply.old.items reply.new.items) }
        ensures does { OnOk result (does self.old payload.now self.new) }
        ensures ready { OnOk result (ready self.new) }
        ensures service { service self.new ≡ service self.old }
        ensures stop { IfErr result (λ stop. stops self.old payload.now stop self.new) }
        ensures unchanged { OnErr result (reply.new.items ≡ reply.old.items) };
}

/// A host answers on its service and its table, beside which there is nothing to change. It stops for want of memory, which has no
/// cause; a payload that is refused leaves it as it was then too.
impl Answers for Host {
    type Stop = Memory;

    ghost use Rattle.rb_trees.specs.mirror.Services.{mirror_service};
    ghost use Rattle.rb_session.specs.Answering.{IsTypedHost, StaysWhereRefused};

    ghost service = { λ host. mirror_service host.service };

    ghost table = { λ host. host.table };

    ghost ready = { IsTypedHost };

    ghost does = { λ before payload after. Unit {0} };

    ghost stops = { λ before payload stop after. StaysWhereRefused payload before after };

    fn answer_one(
        &mut self,
        alloc: Global,
        payload: &[u8],
        reply: &mut BytesMut,
    ) -> Result<u8, Memory> {
        answer(alloc, self, payload, reply)
    }
}
