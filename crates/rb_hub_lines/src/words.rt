// How events are written.

ghost use Rattle.std.specs.Prelude.{◌≡◌, IfOk};
ghost use Rattle.std.specs.String.{string_bytes};
ghost use Rattle.rb_hub_lines.specs.Lines.{event_words};
ghost use Rattle.rb_hub.specs.Serial.{as_event};

use hex::encode;
use rb_hub::Event;
use std::alloc::{AllocError, Global};

/// How an event is written.
#[tactic(auto, using(crate::proofs::Pieces::pieces))]
pub fn event_words(alloc: Global, event: &Event) -> Result<String, AllocError>
    ensures { IfOk result (λ text. string_bytes text ≡ event_words (as_event event.now)) }
{
    match event {
        Event::Open => String::from_str(alloc, "open"),
        Event::Piece(number, piece) => {
            let digits = encode(alloc, piece.as_slice())?;
            format!(in alloc; "piece {number} {digits}")
        }
        Event::Close(number) => format!(in alloc; "close {number}"),
    }
}
