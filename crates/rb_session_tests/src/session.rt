// Tests of answers, and of sessions.

mod answers;
mod serving;
mod sessions;
mod streams;
