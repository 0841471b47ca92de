// The sentences on names that aren't known, and on what can't be assigned. `@` stands for a name of the text at hand, and `#`
// for the number of a line or another word.

use rb_pieces::Help;

// Types.

pub const NO_CLASS_HERE: Help = Help {
    wrong: b"There is no class `@`.",
    mend: b"Declare it by `class @ { .. }` before the objects, or write the name of a class that is declared.",
};

pub const OTHER_TYPE: Help = Help {
    wrong: b"There is no type `@`.",
    mend: b"Write `#` in its place.",
};

pub const NO_FRACTIONS: Help = Help {
    wrong: b"There is no type `@`: numbers are whole.",
    mend: b"Write `Int`, as of hundredths.",
};

pub const OTHER_LIST: Help = Help {
    wrong: b"There is no type `@`.",
    mend: b"Write `List<Int>`, or another type in place of `Int`.",
};

pub const NO_RESULT_TYPE: Help = Help {
    wrong: b"There is no type `@`.",
    mend: b"Leave the type of the result and its colon out, where a method gives nothing.",
};

pub const MADE_INTERFACE: Help = Help {
    wrong: b"`@` is an interface, and its objects are made at the server alone.",
    mend: b"Get one by a call in a `batch`, as of a method whose result is `@`.",
};

pub const BATCH_OF_CLASS: Help = Help {
    wrong: b"`@` is a class, and a batch is begun with the name of an interface.",
    mend: b"Declare an interface, under another name, with the methods that the batch calls, and write that name here.",
};

// Variables.

pub const FIELD_OF_THIS: Help = Help {
    wrong: b"`@` is a field, and isn't known by its name alone.",
    mend: b"Write `this.@`.",
};

pub const OUT_OF_BLOCK: Help = Help {
    wrong: b"`@`, declared in line #, isn't known after the block in which it is declared.",
    mend: b"Declare it by `var @ = ..;` before that block, and assign it there.",
};

pub const DECLARED_LATER: Help = Help {
    wrong: b"`@` is declared in line # alone, after this place.",
    mend: b"Move its declaration before this.",
};

pub const NOT_DECLARED: Help = Help {
    wrong: b"`@` is assigned, and isn't declared.",
    mend: b"Write `var @ = ..;` where it gets its first value.",
};

pub const TYPE_AS_VALUE: Help = Help {
    wrong: b"`@` is the name of a class or an interface, and no value.",
    mend: b"Name an object of it by a variable; `new` makes one of a class.",
};

// Members.

pub const FIELD_NOT_METHOD: Help = Help {
    wrong: b"`@` is a field, and no method.",
    mend: b"Take the parentheses after it away.",
};

pub const METHOD_NOT_FIELD: Help = Help {
    wrong: b"`@` is a method, and no field.",
    mend: b"Write `@(..)`.",
};

// What can't be assigned.

pub const VAL_TO_VAR: Help = Help {
    wrong: b"`@` can't be assigned, since it is a `val`.",
    mend: b"Write `var @` in place of `val @` in line #.",
};

pub const COPY_TO_VAR: Help = Help {
    wrong: b"`@` can't be assigned, since it isn't a `var`.",
    mend: b"Copy its value into a `var` of another name, and assign that.",
};

pub const NO_ITEM: Help = Help {
    wrong: b"The items of a List don't change.",
    mend: b"Make a new List in a `var`; or let the items be objects of a class, and assign a field: `@[0].v = ..;`.",
};

// Types that may not stand where they do.

pub const LIST_IN_RESULT: Help = Help {
    wrong: b"A method of an interface can't give a List.",
    mend: b"Write `Rows` in place of `List`, and go over the rows by `for`, within the batch.",
};

pub const LIST_IN_PARAMETER: Help = Help {
    wrong: b"A method of an interface can't take a List.",
    mend: b"Let it take one item, and call it once for each.",
};

pub const CLASS_AT_SERVER: Help = Help {
    wrong: b"`@` is a class of this program, and its objects don't go to the server or come from there.",
    mend: b"Take or give its fields, as Int, Bool or Text; or an object of an interface.",
};

pub const INTERFACE_IN_CLASS: Help = Help {
    wrong: b"`@` is an interface, and its objects are known in a batch alone.",
    mend: b"Take what its methods give, as an Int, a Bool or a Text.",
};

pub const ROWS_IN_SERVICE: Help = Help {
    wrong: b"There are no Rows in a service: they are what a program sees of a List.",
    mend: b"Write `List` in place of `Rows`.",
};

pub const ROWS_IN_CLASS: Help = Help {
    wrong: b"A class can't keep, take or give Rows: they are known in a batch alone.",
    mend: b"Write `List` in place of `Rows` for a list of this program; go over rows by `for`, within the batch.",
};
