// Tests of the engine: programs read from texts, over a World that keeps what it is asked.

mod classes;
mod programs;
mod record;
mod remote;
mod runs;
mod service;
