// Tests of files, streams and listeners in memory, and of places.

mod files;
mod listening;
mod places;
mod streams;
