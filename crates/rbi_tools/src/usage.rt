// The words that the tools take.

use crate::person::Person;
use rb_top::Status;

/// What standard error has where the words name no tool.
const USAGE: &str = "\
rbi-tools fmt FILE [--check]              lays out a program, or a service where FILE ends in .rbs
rbi-tools bytes FILE                      shows what the bytes of a message, of frames or of a journal are
rbi-tools trace PROGRAM SERVICE [FUEL]    runs a program as `rbi both` does, and tells each exchange
rbi-tools trace ADDRESS PROGRAM [FUEL]    the same as `rbi run` does; an ADDRESS has a colon
rbi-tools svg PROGRAM                     draws how each batch is divided, or why one is refused
";

/// Says that the words name no tool, and on standard error which words do.
pub fn say_usage<R: Print + Eprint + AllocGlobal>(person: &Person<'_, R>) -> u8 {
    person.note(USAGE);
    person.print(b"words not understood\n", Status::Words.code())
}
