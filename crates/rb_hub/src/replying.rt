// The requests of a session are answered in order.

ghost use Rattle.std.specs.Prelude.{◌≡◌, ◌≤◌, ◌++◌, List, length, All, OnOk};
ghost use Rattle.rb_meaning.specs.Answers.{longest_request};
ghost use Rattle.rb_meaning_frames.specs.Streams.{IsRequest};
ghost use Rattle.rb_meaning_frames.specs.Histories.{asked_by};
ghost use Rattle.rb_hub.specs.declared.events.Out.{Out};
ghost use Rattle.rb_hub.specs.Hubs.{RepliesOne, RepliesAll};

use crate::events::{HubStop, Out};
use bytes::BytesMut;
use rb_meaning_frames::histories_go_on;
use rb_session::{Answers, fill_room, leave_room};
use rb_trees::{Seq, Word};
use std::alloc::Global;

/// The frame of the reply to a request.
fn reply_frame<A: Answers>(
    alloc: Global,
    answers: &mut A,
    payload: &[u8],
) -> Result<Word, HubStop<A::Stop>>
    requires size { length payload.now ≤ longest_request }
    requires ready { A.ready answers.old }
    ensures replies { RepliesOne A.Answers payload.now answers.old answers.new result }
    ensures ready { OnOk result (A.ready answers.new) }
    ensures service { A.service answers.new ≡ A.service answers.old }
{
    let mut frame = BytesMut::new(alloc);
    let at = leave_room(&mut frame)?;
    let kind = match answers.answer_one(alloc, payload, &mut frame) {
        Ok(kind) => kind,
        Err(stop) => return Err(HubStop::Answers(stop)),
    };
    fill_room(kind, at, &mut frame);
    Ok(Seq::from_slice(alloc, frame.as_slice())?)
}

/// Answers the requests of a session, in order, and adds the frames of the replies.
pub fn answer_all<A: Answers>(
    alloc: Global,
    answers: &mut A,
    number: u32,
    payloads: &[Word],
    outs: &mut Seq<Out>,
) -> Result<(), HubStop<A::Stop>>
    requires requests { All IsRequest payloads.now }
    requires ready { A.ready answers.old }
    ensures replies { (given : List Out) × (outs.new ≡ outs.old ++ given)
        × RepliesAll A.Answers (asked_by number payloads.now) answers.old answers.new given result }
    ensures ready { OnOk result (A.ready answers.new) }
    ensures service { A.service answers.new ≡ A.service answers.old }
{
    histories_go_on();
    for payload in payloads {
        let frame = reply_frame(alloc, answers, payload.as_slice())?;
        outs.push(Out::Reply(number, frame))?;
    }
    Ok(())
}
