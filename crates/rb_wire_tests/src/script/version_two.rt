// Tests of scripts as bytes of version 2.

mod changes;
mod groups;
mod limits;
mod pools;
mod spellings;
mod violations;
