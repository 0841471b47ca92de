// Tests of forests and refusals as bytes of version 2.

mod changes;
mod limits;
mod refusals;
pub mod spellings;
mod violations;
