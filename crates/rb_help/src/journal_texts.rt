// The sentences on journals. `@` stands for the name of the file.

use rb_pieces::Help;

pub const DISK_FAULT: Help = Help {
    wrong: b"The journal `@` can't be had, or a call of its file failed.",
    mend: b"See whether another process uses it, whether it may be written, and whether the disk is full. \
What was answered is kept; start again, and the journal is read anew.",
};

pub const JOURNAL_FULL: Help = Help {
    wrong: b"The journal `@` is full.",
    mend: b"No record may end past 2^40 bytes. Begin another journal, on a service file with the objects as they are now.",
};

pub const NO_JOURNAL: Help = Help {
    wrong: b"The file `@` is no journal, and nothing of it was changed.",
    mend: b"See whether its name is right. A journal begins with the bytes 52 42 4a 01; an empty file becomes one.",
};

pub const BAD_RECORD: Help = Help {
    wrong: b"The journal `@` has a record that no server wrote, and nothing of it was changed.",
    mend: b"No crash leaves such a record. Take a copy of the journal from before; docs/journal.md has the form.",
};
