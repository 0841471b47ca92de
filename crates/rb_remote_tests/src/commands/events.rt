// What each command does to its outside, call by call.

/// The kinds of calls.
#[derive(Clone, Copy, Debug, PartialEq)]
pub enum Call {
    Read,
    Dial,
    Exchange,
    Listen,
    /// A read of a session's requests.
    Take,
    /// A write of a session's replies.
    Reply,
    Write,
}

pub const CALLS: &[Call] = &[
    Call::Read,
    Call::Dial,
    Call::Exchange,
    Call::Listen,
    Call::Take,
    Call::Reply,
    Call::Write,
];

/// What a run does to its outside.
#[derive(Clone, Copy)]
pub enum Event<'a> {
    /// It reads the file of this name.
    Read(&'a str),
    Dial,
    /// It makes a link of its own.
    Around,
    /// It exchanges a request and its reply over a link that was dialled, after so many others.
    Exchange(&'a str),
    /// It does so over its own, where no exchange fails.
    Within,
    /// It starts to listen, or waits for the next session.
    Listen,
    /// It reads of the session at hand: a header, what follows it, or the end.
    Take,
    /// It answers a request of that session, and writes the reply.
    Reply,
    /// It writes the line of that session, which ended so unless a call of it failed.
    Session(&'a str),
    /// It writes the line of the file that the requests let grow.
    Grown,
    /// It writes this line.
    Line(&'a str),
}

/// A command, its exit status with a space behind it, and what it does, in order.
#[derive(Clone, Copy)]
pub struct Command<'a> {
    pub words: &'a str,
    pub status: &'a str,
    /// Whether it says nothing on its output, not even what failed.
    pub is_silent: bool,
    pub events: &'a [&'a [Event<'a>]],
    /// The table of its link after no exchange, after one, and so on.
    pub tables: &'a [&'a str],
}

/// A program of two batches with lines between them, which ends by a fault.
pub const MAIN: &str =
    "main { batch (Dir r) { print(r.file(0).size()); r.file(0).grow(1); } print(5); batch (Dir r) { print(r.file(1).size()); r.file(1).grow(1); } print(6); throw \"End\"; }";

/// The table of the service after no exchange of that program, after one, and after two.
const TABLES: &[&str] = &[
    "object 0: Dir { list = [#1, #2]; }\nobject 1: File { name = \"a\"; size = 10; }\nobject 2: File { name = \"bb\"; size = 200; }\n",
    "object 0: Dir { list = [#1, #2]; }\nobject 1: File { name = \"a\"; size = 11; }\nobject 2: File { name = \"bb\"; size = 200; }\n",
    "object 0: Dir { list = [#1, #2]; }\nobject 1: File { name = \"a\"; size = 11; }\nobject 2: File { name = \"bb\"; size = 201; }\n",
];

/// What each run of that program does.
const RUN: &[Event<'static>] = &[
    Event::Exchange("0"),
    Event::Line("10"),
    Event::Line("5"),
    Event::Exchange("1"),
    Event::Line("200"),
    Event::Line("6"),
    Event::Line("fault 8 Thrown \"End\" at 3:152"),
    Event::Line("exchanges 2"),
];

/// The same over a link of its own.
const NEAR: &[Event<'static>] = &[
    Event::Around,
    Event::Within,
    Event::Line("10"),
    Event::Line("5"),
    Event::Within,
    Event::Line("200"),
    Event::Line("6"),
    Event::Line("fault 8 Thrown \"End\" at 3:152"),
    Event::Line("exchanges 2"),
];

/// The same without exchanges.
const UNDIVIDED: &[Event<'static>] = &[
    Event::Line("10"),
    Event::Line("5"),
    Event::Line("200"),
    Event::Line("6"),
    Event::Line("fault 8 Thrown \"End\" at 3:152"),
    Event::Line("exchanges 2"),
];

/// The lines of the table after such a run.
const GROWN: &[Event<'static>] = &[
    Event::Line("object 0: Dir { list = [#1, #2]; }"),
    Event::Line("object 1: File { name = \"a\"; size = 11; }"),
    Event::Line("object 2: File { name = \"bb\"; size = 201; }"),
];

/// The view of the program's two divisions.
const VIEW: &[Event<'static>] = &[
    Event::Line("batch 3:8"),
    Event::Line("inputs"),
    Event::Line("script"),
    Event::Line("  0 keep root.file(0).size()"),
    Event::Line("  1 do root.file(0).grow(1)"),
    Event::Line("remainder"),
    Event::Line("  print(<0>);"),
    Event::Line("  pass <1>;"),
    Event::Line("batch 3:80"),
    Event::Line("inputs"),
    Event::Line("script"),
    Event::Line("  0 keep root.file(1).size()"),
    Event::Line("  1 do root.file(1).grow(1)"),
    Event::Line("remainder"),
    Event::Line("  print(<0>);"),
    Event::Line("  pass <1>;"),
];

/// A trial of eight files, of which one is large and grows. Its texts are its own, so it reads no file.
const TRIAL: &[Event<'static>] = &[
    Event::Around,
    Event::Within,
    Event::Line("4212"),
    Event::Line("1"),
    Event::Line("done"),
    Event::Line("exchanges 1"),
    Event::Line("objects 9"),
];

/// The table of that trial before and after its exchange.
const TRIAL_TABLES: &[&str] = &[
    "object 0: Dir { list = [#1, #2, #3, #4, #5, #6, #7, #8]; }\nobject 1: File { name = \"f1\"; size = 617; }\nobject 2: File { name = \"f2\"; size = 234; }\nobject 3: File { name = \"f3\"; size = 851; }\nobject 4: File { name = \"f4\"; size = 468; }\nobject 5: File { name = \"f5\"; size = 85; }\nobject 6: File { name = \"f6\"; size = 702; }\nobject 7: File { name = \"f7\"; size = 319; }\nobject 8: File { name = \"f8\"; size = 936; }\n",
    "object 0: Dir { list = [#1, #2, #3, #4, #5, #6, #7, #8]; }\nobject 1: File { name = \"f1\"; size = 617; }\nobject 2: File { name = \"f2\"; size = 234; }\nobject 3: File { name = \"f3\"; size = 851; }\nobject 4: File { name = \"f4\"; size = 468; }\nobject 5: File { name = \"f5\"; size = 85; }\nobject 6: File { name = \"f6\"; size = 702; }\nobject 7: File { name = \"f7\"; size = 319; }\nobject 8: File { name = \"f8\"; size = 937; }\n",
];

/// The frame of a request that has the first file grow by one, and asks for its size then.
pub const GROW: &[u8] =
    b"RB\x01\x00\x00\x00\x00\x00\x00\x00\x80\x01\x00\x00\x00\x00\x02\x10\x00\x00\x00\x00\x00\x00\x00\x01\x26\x00\x00\x00\x01\x00\x00\x00\x00\x04grow\x26\x00\x00\x00\x01\x04\x00\x00\x00\x04file\x23\x00\x00\x00\x01\x20\x01\x00\x00\x00\x00\x00\x00\x00\x00\x00\x00\x00\x01\x20\x01\x00\x00\x00\x00\x00\x00\x00\x01\x11\x00\x00\x00\x01\x00\x00\x00\x01\x26\x00\x00\x00\x01\x01\x00\x00\x00\x04size\x26\x00\x00\x00\x01\x04\x00\x00\x00\x04file\x23\x00\x00\x00\x01\x20\x01\x00\x00\x00\x00\x00\x00\x00\x00\x00\x00\x00\x00";

/// The frames of the replies to the first such request, to the second, and so on.
pub const REPLIES: &[&[u8]] = &[
    b"RB\x02\x00\x00\x00\x00\x00\x00\x00\x10\x01\x00\x00\x00\x01\x31\x01\x00\x00\x00\x00\x00\x00\x00\x0b\x00",
    b"RB\x02\x00\x00\x00\x00\x00\x00\x00\x10\x01\x00\x00\x00\x01\x31\x01\x00\x00\x00\x00\x00\x00\x00\x0c\x00",
    b"RB\x02\x00\x00\x00\x00\x00\x00\x00\x10\x01\x00\x00\x00\x01\x31\x01\x00\x00\x00\x00\x00\x00\x00\x0d\x00",
    b"RB\x02\x00\x00\x00\x00\x00\x00\x00\x10\x01\x00\x00\x00\x01\x31\x01\x00\x00\x00\x00\x00\x00\x00\x0e\x00",
];

/// The line of that file after no such request, after one, and so on.
pub const SIZES: &[&str] = &[
    "object 1: File { name = \"a\"; size = 10; }",
    "object 1: File { name = \"a\"; size = 11; }",
    "object 1: File { name = \"a\"; size = 12; }",
    "object 1: File { name = \"a\"; size = 13; }",
    "object 1: File { name = \"a\"; size = 14; }",
];

/// A session of three such requests, each with a read of its header and one of its payload. The last read finds the end.
pub const WHOLE: &[Event<'static>] = &[
    Event::Take,
    Event::Take,
    Event::Reply,
    Event::Take,
    Event::Take,
    Event::Reply,
    Event::Take,
    Event::Take,
    Event::Reply,
    Event::Take,
];

/// A session of one such request and five bytes of another.
const CUT: &[Event<'static>] = &[
    Event::Take,
    Event::Take,
    Event::Reply,
    Event::Take,
    Event::Take,
];

const READS: &[Event<'static>] = &[Event::Read("p"), Event::Read("s")];

pub const COMMANDS: &[Command<'static>] = &[
    Command {
        words: "check p",
        status: "0 ",
        is_silent: false,
        events: &[&[Event::Read("p"), Event::Line("accepted")]],
        tables: &[],
    },
    Command {
        words: "split p",
        status: "0 ",
        is_silent: false,
        events: &[&[Event::Read("p")], VIEW],
        tables: &[],
    },
    Command {
        words: "both p s",
        status: "1 ",
        is_silent: false,
        events: &[READS, NEAR, GROWN],
        tables: TABLES,
    },
    Command {
        words: "unsplit p s",
        status: "1 ",
        is_silent: false,
        events: &[READS, UNDIVIDED, GROWN],
        tables: &[],
    },
    Command {
        words: "run a p",
        status: "1 ",
        is_silent: false,
        events: &[&[Event::Read("p"), Event::Dial], RUN],
        tables: TABLES,
    },
    Command {
        words: "pair p s",
        status: "1 ",
        is_silent: false,
        events: &[READS, &[Event::Dial], RUN],
        tables: TABLES,
    },
    Command {
        words: "trial 8",
        status: "0 ",
        is_silent: false,
        events: &[TRIAL],
        tables: TRIAL_TABLES,
    },
    Command {
        words: "serve a s 2",
        status: "0 ",
        is_silent: false,
        events: &[
            &[Event::Read("s"), Event::Listen, Event::Listen],
            WHOLE,
            &[Event::Session("end"), Event::Listen],
            CUT,
            &[
                Event::Session("cut"),
                Event::Line("object 0: Dir { list = [#1, #2]; }"),
                Event::Grown,
                Event::Line("object 2: File { name = \"bb\"; size = 200; }"),
            ],
        ],
        tables: &[],
    },
    // It has no output: it makes no write but those of its session.
    Command {
        words: "child s",
        status: "0 ",
        is_silent: true,
        events: &[&[Event::Read("s"), Event::Listen, Event::Listen], WHOLE],
        tables: &[],
    },
];
