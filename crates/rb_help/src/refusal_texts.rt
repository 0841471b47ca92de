// The sentences on batches that are refused. `@` stands for a name or a statement of the text at hand, and `#` for a number or
// another name.

use rb_pieces::Help;

// What comes back and would be sent again.

pub const FLOW: &[u8] =
    b"A batch is sent before its results come back, so what local code makes of a result can't go into it again.";

pub const FLOW_OF_VAR: &[u8] =
    b"A batch is sent before its results come back, so what local code puts into `@` can't go into it again.";

pub const VAL_FOR_VAR: &[u8] =
    b"Write `val @` in place of `var @` in line #, so that the server keeps it.";

pub const VAL_FOR_EACH: &[u8] =
    b"Bind each value of `@` by a `val` with a name of its own, so that the server keeps it, and send the last.";

pub const DECLARE_BEFORE: &[u8] =
    b"Declare `@` by `var` before the batch, and assign it in place of its declaration.";

pub const DECLARE_ALL_BEFORE: &[u8] =
    b"Declare what both batches need by `var` before the batch, and get remote objects anew.";

pub const END_BEFORE: &[u8] = b"End the batch before `@` in line #, and begin a second one there.";

pub const BIND_BETWEEN: &[u8] = b"Put `@` into a `val` between the two, and send that.";

pub const COPY_BEFORE: &[u8] = b"Copy `@` into a `val` before the batch, and send that.";

pub const AFTER_LOOP: &[u8] =
    b"Keep in a List what this batch gives; then begin a batch for each item, in a `while` after it.";

// What isn't known when the batch begins.

pub const UNKNOWN_YET: &[u8] =
    b"This isn't known when the batch begins, and what a batch sends has to be.";

pub const NAME_UNKNOWN_YET: &[u8] =
    b"`@` isn't known when the batch begins, and what a batch sends has to be.";

pub const BIND_BEFORE: &[u8] =
    b"Put the Int, Bool or Text that is meant into a `val` before the batch, and write that here.";

pub const MOVE_DECLARATION: &[u8] = b"Move the declaration of `@` in line # before the batch.";

pub const MOVE_ALL: &[u8] =
    b"Move the declaration of `@` in line # and all that assigns it before the batch.";

pub const MOVE_ASSIGNMENT: &[u8] = b"Move the assignment of `@` in line # before the batch.";

// What local code would decide.

pub const LOCAL_CONDITION: &[u8] =
    b"Local code decides whether the call is made, and it runs only when the batch has come back.";

pub const AROUND_BATCH: &[u8] = b"Let the `@` go around the batch, and the batch begin in it.";

pub const END_BEFORE_HEAD: &[u8] =
    b"End the batch before the `@` in line #, and begin a second one in it.";

pub const BIND_CALL: &[u8] = b"Bind `@` by a `val` in a statement before, and write its name here.";

pub const ASK_VAR: &[u8] =
    b"Let the `while` ask a `var`, and begin a batch in it that assigns the `var`.";

pub const DECIDE_BEHIND: &[u8] =
    b"Let a `var` from before the batch keep what is decided, and begin a second batch after it, in an `if` on that `var`.";

// Lists that local code would go over.

pub const LOCAL_LIST: &[u8] =
    b"Local code goes over this list, and it runs only when the batch has come back.";

pub const LIST_OF_ITEMS: &[u8] =
    b"A batch takes a List of Int, Bool or Text along: before the batch, put what the call needs of each item into one.";

pub const COPY_LIST: &[u8] = b"Copy `@` into a `val` before the batch, and go over that.";

pub const BIND_LIST: &[u8] = b"Put `@` into a `val` before the batch, and go over that.";

pub const LIST_BEHIND: &[u8] =
    b"Let a List from before the batch keep the items, and go over it in a second batch.";

// Remote objects.

pub const ESCAPES: &[u8] =
    b"A remote object, or rows, can't be used here: they stay at the server.";

pub const ROWS_BY_FOR: &[u8] =
    b"Go over the rows by `for`, and use what a method of each row gives.";

pub const USE_METHOD: &[u8] = b"Write what a method of it gives, as by `.@()`.";

pub const USE_SOME_METHOD: &[u8] = b"Write what a method of it gives, an Int, a Bool or a Text.";

pub const REMOTE_VAR: &[u8] = b"`@` would hold a remote object or rows, and a `var` can't.";

pub const VAL_FOR_OBJECT: &[u8] = b"Write `val @` in place of `var @`.";

pub const VAL_FOR_EACH_OBJECT: &[u8] =
    b"Bind each object by a `val` of a name of its own, and assign none of them.";

// Batches and calls that can't stand where they do.

pub const BATCH_INSIDE: &[u8] = b"A batch can't stand in a batch.";

pub const USE_OUTER_ROOT: &[u8] =
    b"Take this `batch (..)` and its braces away, and write `@` in place of `#`.";

pub const END_FIRST: &[u8] = b"End the batch of line # before this one begins.";

pub const BATCH_CALLED_INSIDE: Help = Help {
    wrong: b"`@` is a `remote fun`, and can't be called in a batch.",
    mend: b"Call it before the batch or after it.",
};

pub const IN_TRY: Help = Help {
    wrong: b"This is performed at the server, and can't stand in a `try` of the batch.",
    mend: b"Put the whole batch of line # into the `try`.",
};

pub const MANY_INPUTS: Help = Help {
    wrong: b"This batch sends # variables from outside, and 255 is the most.",
    mend: b"Divide it into two batches.",
};

pub const LARGE_SCRIPT: Help = Help {
    wrong: b"What this batch sends would have # bytes, and 4194304 is the most.",
    mend: b"Divide it into two batches.",
};
