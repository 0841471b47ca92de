// Tests of services as their texts give them.

mod limits;
mod refusals;
mod tables;
mod texts;
