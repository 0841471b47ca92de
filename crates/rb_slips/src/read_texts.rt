// The sentences on texts that aren't read: what is missing, what is too much, and what can stand at a place. `@` stands for
// a name or sign of the text at hand, and `#` for a sign, a part or the number of a line.

use rb_pieces::Help;

pub const MISSING_BEFORE: &[u8] = b"`#` is missing before `@`.";

pub const MISSING_AFTER: &[u8] = b"`#` is missing after `@`";

pub const IN_LINE: &[u8] = b" in line #.";

pub const HERE: &[u8] = b".";

pub const WRITE_BEHIND: &[u8] = b"Write `#` after `@`.";

pub const WRITE_WHOLE: &[u8] = b"Write `@#`.";

pub const WRITE_SPACED: &[u8] = b"Write `@ #`.";

pub const OPEN_SINCE: &[u8] = b"Close the `{` of line # before it.";

pub const PART_MISSING: &[u8] = b"# is missing before `@`.";

pub const WRITE_PART: &[u8] = b"Write it after `@`.";

pub const TAKE_AWAY: Help = Help {
    wrong: b"`@` can't stand here.",
    mend: b"Take it away.",
};

pub const IN_ITS_PLACE: Help = Help {
    wrong: b"`@` can't stand here.",
    mend: b"Write `#` in its place.",
};

pub const WHAT_CAN_STAND: &[u8] = b"What can stand here is ";

pub const BRACE_OPEN: Help = Help {
    wrong: b"The text ends here, and the `{` in line # isn't closed.",
    mend: b"Write a `}` at the end of its block, or of the block in it that lacks one.",
};

pub const MAIN_MISSING: Help = Help {
    wrong: b"The text ends here, and `main` is missing.",
    mend: b"End the program by `main { .. }`.",
};

pub const ROOT_MISSING: Help = Help {
    wrong: b"The text ends here, and the root is missing.",
    mend: b"End the service by `root 0;`, with the number of the object at which batches begin.",
};

// Tokens.

pub const NO_TOKEN: Help = Help {
    wrong: b"`@` begins nothing in this language.",
    mend: b"Take it out; other signs than the language's own stand in text literals and comments alone.",
};

pub const HALF_SIGN: Help = Help {
    wrong: b"A single `@` means nothing here.",
    mend: b"Write `@@`.",
};

pub const BAD_ESCAPE: Help = Help {
    wrong: b"In a text literal a backslash stands only in `\\n`, `\\\"` and `\\\\`.",
    mend: b"Write `\\\\` where the text is to have a backslash.",
};

pub const OPEN_TEXT: Help = Help {
    wrong: b"This text literal isn't closed on its line.",
    mend: b"Close it by `\"`; a line feed in it is written `\\n`.",
};

pub const LARGE_NUMBER: Help = Help {
    wrong: b"@ is no Int: the greatest is 9223372036854775807, and the least -9223372036854775808.",
    mend: b"Write a number between them.",
};

pub const NOT_UTF8: Help = Help {
    wrong: b"The text isn't UTF-8 from here on.",
    mend: b"Save the file as UTF-8.",
};

pub const LONG_SOURCE: Help = Help {
    wrong: b"The text goes on here, behind the 1048576 bytes that it may have.",
    mend: b"Shorten it.",
};

pub const LONG_LITERAL: Help = Help {
    wrong: b"This text literal has more than the 4096 bytes that a Text may have.",
    mend: b"Shorten it, or print it in several pieces.",
};

// Reading.

pub const ENDS_EARLY: Help = Help {
    wrong: b"The text ends here, and something is missing.",
    mend: b"See whether each `{` has its `}`, and whether `main` stands at the end.",
};

pub const KEYWORD_AS_NAME: Help = Help {
    wrong: b"A name is wanted here, and `@` is a word of the language.",
    mend: b"Choose another name.",
};

pub const NAME_WANTED: Help = Help {
    wrong: b"A name is wanted here, and `@` is none.",
    mend: b"Write a name: a letter or `_`, and then letters, digits and `_`.",
};

pub const UNEXPECTED: Help = Help {
    wrong: b"`@` can't stand here.",
    mend: b"See whether something is missing before it, such as a `;`, a `)` or a `}`.",
};

pub const BLOCKS_NESTED: Help = Help {
    wrong: b"64 blocks are open before this one, and no more may be.",
    mend: b"Move inner blocks into a method of their own.",
};

pub const NESTED: Help = Help {
    wrong: b"This is nested too deep: an expression has at most 200 operators, dots, brackets and parentheses, \
and a type or list at most 64 brackets within each other.",
    mend: b"Give parts of it names of their own by `val`.",
};
