// The sentences on files of events. `@` stands for the name of the file, and `#` for the number of a line.

use rb_pieces::Help;

pub const NO_EVENT: Help = Help {
    wrong: b"Line # of `@` is no event.",
    mend: b"Each line is `open`, `piece K HEX` or `close K`, and ends with a line feed, the last one too. \
K is a number from 0 to 4294967295, and HEX has two digits for each byte, with lower-case letters.",
};
