// Tests of forests and refusals as bytes, both ways, and of nodes that fit a remainder.

mod calls;
mod cursors;
mod fitting;
pub mod forests;
mod limits;
mod opened;
pub mod refusals;
mod version_two;
mod violations;
