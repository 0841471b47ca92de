//! Pictures of batches, in SVG: a batch's source with what is sent, what goes along and what stays in their colours, beside its
//! script and its remainder; and a batch that is refused, with arrows from place to place.
#![tactic(auto)]

mod arrows;
mod colours;
mod drawing;
mod escapes;
mod excerpts;
mod page;
mod panels;
mod pictures;

pub use pictures::picture;
