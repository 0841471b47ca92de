// Tests of reading programs and services, and of printing what was read.

mod copies;
mod nesting;
mod printing;
mod refusals;
mod services;
mod texts;
