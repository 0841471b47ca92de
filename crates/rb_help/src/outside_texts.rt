// The sentences on what stands around a program. `@` stands for the name of a file or the address of a server, and `#`
// for a number.

use rb_pieces::Help;

// Words of the command line. `#` stands for the words that a command takes.

pub const NO_COMMAND: &[u8] = b"`@` is no command.";

pub const NEAR_COMMAND: &[u8] = b"`@` is no command; `#` is the nearest.";

pub const TELL_ALL: &[u8] = b"`rbi help` tells all commands.";

pub const TELL_NEAREST: &[u8] = b"`rbi help @` tells more of it, and `rbi help` all commands.";

pub const OTHER_WORDS: &[u8] = b"`rbi @` takes other words: `rbi #`.";

pub const NO_FUEL: &[u8] = b"`@` is no FUEL, which is a number from 0 to 1000000000.";

pub const NO_COUNT: &[u8] = b"`@` is no COUNT, which is a number from 1 to 1000000.";

pub const NO_FILES: &[u8] =
    b"`@` is no N, which is a number from 1 to 10000, of at most five digits.";

pub const TELL_MORE: &[u8] = b"`rbi help @` tells more.";

// Files.

pub const FILE_FAULT: Help = Help {
    wrong: b"The file `@` can't be read.",
    mend: b"See whether its name is right, and whether it may be read.",
};

pub const FILE_TOO_LONG: Help = Help {
    wrong: b"The file `@` has more than 1048576 bytes.",
    mend: b"Shorten it.",
};

pub const UTF8_MARK: Help = Help {
    wrong: b"The file begins with a byte order mark, the bytes EF BB BF.",
    mend: b"Save it without one: as UTF-8, and not as UTF-8 with BOM.",
};

pub const UTF16_MARK: Help = Help {
    wrong: b"The file begins with a byte order mark of UTF-16.",
    mend: b"Save it as UTF-8, without a byte order mark.",
};

pub const OUTPUT_FAULT: Help = Help {
    wrong: b"The output can't be written.",
    mend: b"See whether what reads it still runs, and whether the disk is full.",
};

pub const LISTEN_FAULT: Help = Help {
    wrong: b"`@` can't be listened on.",
    mend: b"An address looks like 127.0.0.1:4000, and is one of this machine. See whether another program listens there.",
};

// Servers that are not reached.

pub const DIAL_FAULT: Help = Help {
    wrong: b"Nothing answers at `@`, so nothing was run.",
    mend: b"An address looks like 127.0.0.1:4000. Start a server there by `serve @ S COUNT`; it ends after COUNT sessions.",
};

pub const CHILD_DIAL_FAULT: Help = Help {
    wrong: b"The child process that is to serve `@` can't be started, so nothing was run.",
    mend: b"See whether this program's file is still where it was started from, and whether more processes may be started.",
};

// Servers that go away. A reply that ends too early is told as a link that breaks.

pub const LINK_FAULT: Help = Help {
    wrong: b"The link to `@` broke in exchange #.",
    mend: SERVER_WENT,
};

pub const CHILD_LINK_FAULT: Help = Help {
    wrong: b"The link to the child process that serves `@` broke in exchange #.",
    mend: CHILD_WENT,
};

pub const SERVER_WENT: &[u8] =
    b"This batch may be performed all the same, and those before it are. \
See whether the server still runs, and what its objects hold.";

pub const CHILD_WENT: &[u8] =
    b"Why it did stands above, if it could say so. The next run begins with the objects of the file again.";

// Replies that can't be used: who sent it, and what is wrong with it.

pub const SERVER_SENT: &[u8] = b"In exchange # `@` ";

pub const CHILD_SENT: &[u8] = b"In exchange # the child process that serves `@` ";

pub const NO_REPLY: &[u8] = b"ended the link without a reply.";

pub const CUT_REPLY: &[u8] = b"ended the link at byte # of its reply.";

pub const NO_FRAME: &[u8] = b"sent what is no reply, from byte # on.";

pub const RESULTS_CUT: &[u8] = b"sent results that end too early, at byte #.";

pub const RESULTS_WITH_SIGN: &[u8] = b"sent results with a byte that means nothing, at byte #.";

pub const RESULTS_WITH_TEXT: &[u8] =
    b"sent results with a Text that is too long or isn't UTF-8, at byte #.";

pub const RESULTS_MISSPELLED: &[u8] =
    b"sent results with a Bool or a number that is spelled as none is, at byte #.";

pub const RESULTS_NESTED: &[u8] = b"sent results that are nested too deep, at byte #.";

pub const RESULTS_AND_MORE: &[u8] = b"sent results with more behind them, at byte #.";

pub const RESULTS_BROKEN: &[u8] = b"sent results that can't be read, at byte #.";

pub const RESULTS_LACK: &[u8] =
    b"sent results that lack what step # of the batch's script is to give.";

pub const RESULTS_LEFT: &[u8] = b"sent more results than the batch's script is to give.";

pub const SCRIPT_REFUSED: &[u8] = b"refused the batch's script, with refusal #.";

pub const REFUSAL_GARBLED: &[u8] = b"sent a refusal that can't be read.";

pub const OTHER_SERVER: &[u8] =
    b"See whether it is the server that is meant, and of this program's version. \
This batch may be performed all the same, and those before it are.";
