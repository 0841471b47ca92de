// The colours of a batch's parts.

use rb_marks::Marks;
use rb_trees::{Mark, Place, Token};

/// The class of a token: what is sent, what both sides have, what stays, or none of these.
pub fn class_of(marks: &Marks, token: Token) -> &'static str {
    match marks.mark_at(token.start) {
        Some(Mark::Remote) => "remote",
        Some(Mark::Constant) => "constant",
        Some(Mark::Local) => "local",
        None => class_of_place(marks.place_at(token.start)),
    }
}

/// The class of the first token of a statement.
fn class_of_place(place: Option<Place>) -> &'static str {
    match place {
        Some(Place::Script) => "remote",
        Some(Place::LocalOnly) => "local",
        Some(Place::Elsewhere) | None => "plain",
    }
}
