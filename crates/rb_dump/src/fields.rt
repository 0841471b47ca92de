// The fields of messages, and those that are still to be read.

/// What a payload is to be.
#[derive(Clone, Copy, Debug, PartialEq, Eq)]
pub enum Message {
    Script,
    Forest,
    Refusal,
}

/// A byte that says what follows.
#[derive(Clone, Copy)]
pub(crate) enum Tag {
    Input,
    /// A value of a script.
    Value,
    /// A value of a forest.
    Kept,
    Step,
    Expr,
    Entry,
    End,
}

/// A byte that is a number, or stands for a name.
#[derive(Clone, Copy)]
pub(crate) enum Code {
    Inputs,
    Input,
    Unary,
    Binary,
    Kind,
    Fault,
    Refusal,
}

/// A truth value.
#[derive(Clone, Copy)]
pub(crate) enum Truth {
    Value,
    Keep,
    Taken,
}

/// A number of 32 bits, as the version spells it.
#[derive(Clone, Copy)]
pub(crate) enum Number {
    Step,
    At,
    Variable,
    Texts,
    Items,
    Steps,
    Arguments,
}

/// A count of four bytes in each version.
#[derive(Clone, Copy)]
pub(crate) enum Count {
    Entries,
    Rows,
}

/// A text.
#[derive(Clone, Copy)]
pub(crate) enum Text {
    /// One of the pool.
    Pooled,
    /// A value of a script.
    Value,
    /// The name of a method.
    Name,
    /// One of a forest, which has no pool.
    Words,
}

/// A field.
#[derive(Clone, Copy)]
pub(crate) enum Field {
    Version(Message),
    Tag(Tag),
    Code(Code),
    Truth(Truth),
    Int,
    Number(Number),
    Count(Count),
    Text(Text),
}

/// Fields that are to be read: so many of a kind, one behind the other, in so many others.
#[derive(Clone, Copy)]
pub(crate) struct Todo {
    pub field: Field,
    pub times: u32,
    pub depth: u32,
}
