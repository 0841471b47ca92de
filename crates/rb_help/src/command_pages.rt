// What is told of each command: what it does, its words, its statuses and an example.

/// What is told of a command.
#[derive(Clone, Copy)]
pub struct CommandPage {
    pub name: &'static str,
    /// The command with the words that it takes.
    pub form: &'static [u8],
    /// The fewest and the most words behind the name.
    pub counts: (usize, usize),
    /// What the command does, in lines.
    pub does: &'static [u8],
    /// What its words are, in lines.
    pub words: &'static [&'static [u8]],
    /// The statuses that it ends with, in lines.
    pub statuses: &'static [&'static [u8]],
    pub example: &'static [u8],
}

// Words.

const PROGRAM: &[u8] = b"  PROGRAM  the file of a program\n";

const SERVICE: &[u8] = b"  SERVICE  the file of a service: its classes, its objects and its root\n";

const ADDRESS: &[u8] = b"  ADDRESS  a host and a port, such as 127.0.0.1:4000\n";

const FUEL: &[u8] =
    b"  FUEL     how many calls of methods and turns of loops the program's own code may make:
           a number from 0 to 1000000000, and 1000000 where it is left out\n";

const COUNT: &[u8] = b"  COUNT    how many clients are served: a number from 1 to 1000000\n";

const JOURNAL: &[u8] =
    b"  JOURNAL  the file of the journal: it is made where it isn't there, and one process at a time uses it\n";

const EVENTS: &[u8] =
    b"  EVENTS   the file of the events, one a line: `open`, `piece K HEX` or `close K`\n";

const REQUEST: &[u8] = b"  REQUEST  the file of a request in JSON\n";

const FILES: &[u8] = b"  N        how many files the service has: a number from 1 to 10000\n";

// Statuses.

const ACCEPTED: &[u8] = b"  0   the program is accepted\n";

const RAN: &[u8] = b"  0   the program ran to its end\n";

const SERVED: &[u8] = b"  0   all clients were served, or all that came\n";

const PLAYED: &[u8] = b"  0   all events were played\n";

const ANSWERED: &[u8] = b"  0   the request was answered: its script was performed, or refused\n";

const FAULTED: &[u8] = b"  1   the program ended by a fault\n";

const NO_FILE: &[u8] = b"  3   a file can't be read\n";

const NOT_TYPED: &[u8] = b"  4   the program isn't read, or isn't typed\n";

const NOT_ADMITTED: &[u8] = b"  5   a batch of the program can't be sent as one script\n";

const NO_SERVICE: &[u8] = b"  6   the service is refused\n";

const NO_LINK: &[u8] = b"  7   an exchange with the server failed\n";

const NO_REPLY: &[u8] = b"  8   a reply of the server can't be used\n";

const NO_OUTPUT: &[u8] = b"  9   the output can't be written\n";

const NO_MEMORY: &[u8] = b"  10  no memory was left\n";

const NOT_DIALLED: &[u8] = b"  11  the server can't be reached\n";

const NOT_STARTED: &[u8] = b"  11  the child can't be started\n";

const NO_LISTENER: &[u8] = b"  12  the address can't be listened on, or gets no further client\n";

const LONG_FILE: &[u8] = b"  13  a file has more than 1048576 bytes\n";

const NO_EVENT: &[u8] = b"  14  a line of the events isn't of their form\n";

const NO_DISK: &[u8] = b"  15  the journal's file can't be had, or a call of it failed\n";

const NO_JOURNAL: &[u8] =
    b"  16  the journal is full, or the file is none, or a record of it is bad\n";

const NO_REQUEST: &[u8] = b"  17  the request isn't JSON, or isn't of the form of requests\n";

/// The pages of all commands.
pub static COMMANDS: [CommandPage; 12] = [
    CHECK, SPLIT, UNSPLIT, BOTH, RUN, PAIR, SERVE, KEEP, CHILD, HUB, JSON, TRIAL,
];

const CHECK: CommandPage = CommandPage {
    name: "check",
    form: b"check PROGRAM",
    counts: (1, 1),
    does: b"It reads a program, checks its types, and tells whether each of its batches can be sent as one script.\n",
    words: &[PROGRAM],
    statuses: &[
        ACCEPTED,
        NO_FILE,
        NOT_TYPED,
        NOT_ADMITTED,
        NO_OUTPUT,
        NO_MEMORY,
        LONG_FILE,
    ],
    example: b"check examples/large.rbi",
};

const SPLIT: CommandPage = CommandPage {
    name: "split",
    form: b"split PROGRAM",
    counts: (1, 1),
    does: b"It checks a program, and shows of each batch its inputs, the steps of its script, and the remainder that stays here.\n",
    words: &[PROGRAM],
    statuses: &[
        ACCEPTED,
        NO_FILE,
        NOT_TYPED,
        NOT_ADMITTED,
        NO_OUTPUT,
        NO_MEMORY,
        LONG_FILE,
    ],
    example: b"split examples/large.rbi",
};

const UNSPLIT: CommandPage = CommandPage {
    name: "unsplit",
    form: b"unsplit PROGRAM SERVICE [FUEL]",
    counts: (2, 3),
    does: b"It checks a program and runs it as it stands: each remote call is made where it is written, and nothing is sent.\n",
    words: &[PROGRAM, SERVICE, FUEL],
    statuses: &[
        RAN,
        FAULTED,
        NO_FILE,
        NOT_TYPED,
        NOT_ADMITTED,
        NO_SERVICE,
        NO_OUTPUT,
        NO_MEMORY,
        LONG_FILE,
    ],
    example: b"unsplit examples/large.rbi examples/files.rbs",
};

const BOTH: CommandPage = CommandPage {
    name: "both",
    form: b"both PROGRAM SERVICE [FUEL]",
    counts: (2, 3),
    does: b"It checks a program and runs it, with the service beside it in the same process. Each batch is one exchange of bytes.\n",
    words: &[PROGRAM, SERVICE, FUEL],
    statuses: &[
        RAN,
        FAULTED,
        NO_FILE,
        NOT_TYPED,
        NOT_ADMITTED,
        NO_SERVICE,
        NO_OUTPUT,
        NO_MEMORY,
        LONG_FILE,
    ],
    example: b"both examples/large.rbi examples/files.rbs",
};

const RUN: CommandPage = CommandPage {
    name: "run",
    form: b"run ADDRESS PROGRAM [FUEL]",
    counts: (2, 3),
    does: b"It checks a program and runs it. Each batch is one exchange with the server that listens at the address.
An exchange fails where the server is silent for 60 seconds. RBI_TIMEOUT has another number, and 0 is without end.\n",
    words: &[ADDRESS, PROGRAM, FUEL],
    statuses: &[
        RAN,
        FAULTED,
        NO_FILE,
        NOT_TYPED,
        NOT_ADMITTED,
        NO_LINK,
        NO_REPLY,
        NO_OUTPUT,
        NO_MEMORY,
        NOT_DIALLED,
        LONG_FILE,
    ],
    example: b"run 127.0.0.1:4000 examples/large.rbi",
};

const PAIR: CommandPage = CommandPage {
    name: "pair",
    form: b"pair PROGRAM SERVICE [FUEL]",
    counts: (2, 3),
    does: b"It checks a program and runs it. Each batch is one exchange with a child process, which serves the service.\n",
    words: &[PROGRAM, SERVICE, FUEL],
    statuses: &[
        RAN,
        FAULTED,
        NO_FILE,
        NOT_TYPED,
        NOT_ADMITTED,
        NO_LINK,
        NO_REPLY,
        NO_OUTPUT,
        NO_MEMORY,
        NOT_STARTED,
        LONG_FILE,
    ],
    example: b"pair examples/large.rbi examples/files.rbs",
};

const SERVE: CommandPage = CommandPage {
    name: "serve",
    form: b"serve ADDRESS SERVICE COUNT",
    counts: (3, 3),
    does: b"It serves a service at an address to so many clients, one after the other, and then prints the table of its objects.
The address `-` is standard input and output, which is one client. There is no authentication and no encryption.
A session ends where the client is silent for 60 seconds. RBI_TIMEOUT has another number, and 0 is without end.\n",
    words: &[ADDRESS, SERVICE, COUNT],
    statuses: &[
        SERVED,
        NO_FILE,
        NO_SERVICE,
        NO_OUTPUT,
        NO_MEMORY,
        NO_LISTENER,
        LONG_FILE,
    ],
    example: b"serve 127.0.0.1:4000 examples/files.rbs 1000",
};

const KEEP: CommandPage = CommandPage {
    name: "keep",
    form: b"keep ADDRESS SERVICE COUNT JOURNAL",
    counts: (4, 4),
    does: b"It serves as `serve` does, and keeps each accepted request in a journal before it performs it.
The requests that the journal holds are performed first. So what a client was answered is there after a crash.\n",
    words: &[ADDRESS, SERVICE, COUNT, JOURNAL],
    statuses: &[
        SERVED,
        NO_FILE,
        NO_SERVICE,
        NO_OUTPUT,
        NO_MEMORY,
        NO_LISTENER,
        LONG_FILE,
        NO_DISK,
        NO_JOURNAL,
    ],
    example: b"keep 127.0.0.1:4000 examples/files.rbs 1000 files.journal",
};

const CHILD: CommandPage = CommandPage {
    name: "child",
    form: b"child SERVICE",
    counts: (1, 1),
    does: b"It serves a service to one client over standard input and output, and prints nothing else. `pair` starts it.\n",
    words: &[SERVICE],
    statuses: &[SERVED, NO_FILE, NO_SERVICE, NO_MEMORY, LONG_FILE],
    example: b"child examples/files.rbs",
};

const HUB: CommandPage = CommandPage {
    name: "hub",
    form: b"hub EVENTS SERVICE",
    counts: (2, 2),
    does: b"It plays what the clients of a server send, in the order of a file, each in pieces and all interleaved.
Of each event it prints what comes out, or why it is refused, and at the end the table of the service's objects.
A piece is written as two digits for each byte, with lower-case letters.\n",
    words: &[EVENTS, SERVICE],
    statuses: &[
        PLAYED, NO_FILE, NO_SERVICE, NO_OUTPUT, NO_MEMORY, LONG_FILE, NO_EVENT,
    ],
    example: b"hub examples/hub.events examples/files.rbs",
};

const JSON: CommandPage = CommandPage {
    name: "json",
    form: b"json SERVICE REQUEST",
    counts: (2, 2),
    does: b"It answers a request that is written in JSON, as a server answers one in bytes.
It prints the reply, in JSON too, and then the table of the service's objects.\n",
    words: &[SERVICE, REQUEST],
    statuses: &[
        ANSWERED, NO_FILE, NO_SERVICE, NO_OUTPUT, NO_MEMORY, LONG_FILE, NO_REQUEST,
    ],
    example: b"json examples/files.rbs examples/request.json",
};

const TRIAL: CommandPage = CommandPage {
    name: "trial",
    form: b"trial N",
    counts: (1, 1),
    does: b"It runs a program of its own as `both` does, on a service of its own with so many files. It reads no file.
The program is one batch over all files. At the end it tells how many objects there are.\n",
    words: &[FILES],
    statuses: &[RAN, NO_OUTPUT, NO_MEMORY],
    example: b"trial 1000",
};
