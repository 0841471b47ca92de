// Laws of frames and streams. They take no memory and do nothing.

ghost use Rattle.rb_meaning_frames.specs.Laws.{HeadersAreSpelled, FramesAreWhole, EachIsDividedOnce, IsCutAnywhere, StaysBroken};
ghost use Rattle.rb_meaning_frames.specs.Reading.{StreamsAreRead, FrontsAreRead, RequestsStay};
ghost use Rattle.rb_meaning_frames.specs.Histories.{EachIsInOrder, EventsLeadOn, HistoriesGoOn, RepliesGoOn};

/// A header whose first three bytes are right spells its kind and the length that it announces, and its frame stands at the
/// front of the bytes where they are no fewer.
pub fn headers_are_spelled()
    ensures headers { HeadersAreSpelled }
    ensures frames { FramesAreWhole }
{}

/// Each list of bytes is, in one way, whole request frames and a rest, which is empty, is cut, or breaks the form.
pub fn each_stream_is_divided_once()
    ensures { EachIsDividedOnce }
{}

/// A stream may come in any pieces: each is divided together with the rest of the one before. What breaks the form goes on
/// breaking it.
pub fn streams_are_cut_anywhere()
    ensures cut { IsCutAnywhere }
    ensures broken { StaysBroken }
{}

/// A stream is read as it is divided, and what follows its requests as it stands. A stream that goes on keeps its requests.
pub fn streams_are_read()
    ensures streams { StreamsAreRead }
    ensures fronts { FrontsAreRead }
    ensures stay { RequestsStay }
{}

/// In the history of many sessions each has the requests of its whole stream, in their order.
pub fn each_session_is_in_order()
    ensures { EachIsInOrder }
{
    streams_are_read();
}

/// More events lead on from where those before them led: their requests stand behind those of the others, and are answered on
/// the table that the others left.
pub fn histories_go_on()
    ensures events { EventsLeadOn }
    ensures histories { HistoriesGoOn }
    ensures replies { RepliesGoOn }
{}
