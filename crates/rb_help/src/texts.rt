// The sentences on texts and on runs. `@` stands for a name or sign of the text at hand, and `#` for a number or a type.

use rb_pieces::Help;

/// What is wrong with a count of arguments, and what to do: where the declaration isn't known, where it is, and where it
/// wants none.
#[derive(Clone, Copy)]
pub struct Count {
    pub wrong: &'static [u8],
    pub mend: &'static [u8],
    pub one_for_each: &'static [u8],
    pub write_none: &'static [u8],
}

// Types.

pub const NO_CLASS: Help = Help {
    wrong: b"There is no class `@`.",
    mend: b"Declare it by `class @ { .. }`, or write the name of a class that is declared.",
};

pub const NO_INTERFACE: Help = Help {
    wrong: b"There is no interface `@`.",
    mend: b"Declare it by `interface @ { .. }`, or write the name of an interface that is declared.",
};

pub const NO_TYPE: Help = Help {
    wrong: b"There is no class or interface `@`.",
    mend: b"Declare it, or write the name of one that is declared.",
};

pub const NO_THIS: Help = Help {
    wrong: b"`this` is known in methods alone.",
    mend: b"Name the object by a variable.",
};

pub const NO_METHOD: Help = Help {
    wrong: b"What stands before the dot has no method `@`.",
    mend: b"Declare `fun @` in its class or interface, or call a method that is declared there.",
};

pub const NO_FIELD: Help = Help {
    wrong: b"What stands before the dot has no field `@`.",
    mend: b"Declare `@` in its class, or read a field that is declared there.",
};

pub const NO_VARIABLE: Help = Help {
    wrong: b"`@` isn't declared here.",
    mend: b"Declare it before, in this block or in one around it, by `val @ = ..;` or `var @ = ..;`.",
};

pub const TAKEN: Help = Help {
    wrong: b"`@` is taken: it is declared in line # already.",
    mend: b"Choose another name.",
};

pub const TAKEN_SOMEWHERE: Help = Help {
    wrong: b"`@` is taken already.",
    mend: b"Choose another name.",
};

pub const NOT_A_PLACE: Help = Help {
    wrong: b"What stands left of this `=` can't be assigned.",
    mend: b"Assign a `var`, or a field of an object.",
};

pub const NO_RETURN: Help = Help {
    wrong: b"`@` promises a value and doesn't return one.",
    mend: b"End its body by `return ..;`, or take the type behind the colon away.",
};

pub const CALL_COUNT: Count = Count {
    wrong: b"`@` takes another number of arguments than #.",
    mend: b"Write one for each parameter of the method.",
    one_for_each: b"one for each parameter of `fun @` in line #.",
    write_none: b"Write none, since `fun @` in line # has no parameters.",
};

pub const NEW_COUNT: Count = Count {
    wrong: b"`new @` takes another number of values than #.",
    mend: b"Write one for each field of the class, in their order.",
    one_for_each: b"one for each field of `class @` in line #, in their order.",
    write_none: b"Write none, since `class @` in line # has no fields.",
};

pub const WRITE_SO_MANY: &[u8] = b"Write #, ";

// Types that may not stand where they do.

pub const TYPE_OF_INTERFACE: Help = Help {
    wrong: b"A method of an interface can't take or give this type.",
    mend: b"It takes Int, Bool, Text and interfaces, and gives these or Rows of them.",
};

pub const TYPE_OF_CLASS: Help = Help {
    wrong: b"A class can't have this type here.",
    mend: b"Its fields, parameters and lists are of Int, Bool, Text, classes and Lists; its methods give these.",
};

pub const TYPE_OF_MAIN: Help = Help {
    wrong: b"`main` can't have this type here.",
    mend: b"It gives Int, Bool, Text or nothing; a List in it is of these, classes and Lists.",
};

// Statements and calls that may not stand where they do.

pub const NO_PRINT: Help = Help {
    wrong: b"A service prints nothing.",
    mend: b"Let the method give the value, and print it in the program.",
};

pub const NO_BATCH: Help = Help {
    wrong: b"A service has no batches.",
    mend: b"Let the program hold the batch.",
};

pub const NO_REMOTE: Help = Help {
    wrong: b"A method of a service can't be a `remote fun`.",
    mend: b"Take the word `remote` away.",
};

pub const BATCH_PLACE: Help = Help {
    wrong: b"A `batch` stands in `main` or in a `remote fun` alone.",
    mend: b"Declare this method by `remote fun`.",
};

pub const REMOTE_CALL: Help = Help {
    wrong: b"`@` is a `remote fun`, and is called from `main` or a `remote fun` alone.",
    mend: b"Declare the method that calls it by `remote fun`.",
};

// Faults of a run.

pub const DIV_ZERO: Help = Help {
    wrong: b"This divides by 0.",
    mend: b"Test the divisor before, or catch the fault by `try`.",
};

pub const INDEX: Help = Help {
    wrong: b"The index is below 0, or not below the number of items.",
    mend: b"Compare it with `len` of the list before, or catch the fault by `try`.",
};

pub const TEXT_TOO_LONG: Help = Help {
    wrong: b"The joined text would have more than 4096 bytes.",
    mend: b"Keep the pieces in a List, or print them one by one.",
};

pub const LIST_TOO_LONG: Help = Help {
    wrong: b"The list would have more than 10000 items.",
    mend: b"Keep the items in several lists.",
};

pub const HEAP_FULL: Help = Help {
    wrong: b"There are 100000 objects already, and no more can be made.",
    mend: b"Use objects again rather than making new ones.",
};

pub const TOO_DEEP: Help = Help {
    wrong: b"32 calls are under way here already, and no deeper one can be made.",
    mend: b"Let a `while` do what the method does by calling itself.",
};

pub const FUEL_USED: Help = Help {
    wrong: b"The fuel is used up: each call of a method and each turn of a loop takes one unit.",
    mend: b"See whether it ends. The last word of a command gives a run more; at the server each batch has 1000000 units.",
};

pub const THROWN: Help = Help {
    wrong: b"\"@\" was thrown, and nothing caught it.",
    mend: b"Catch it by `try { .. } catch (e) { .. }`, or see why it is thrown.",
};

pub const SERVER_DIV_ZERO: Help = Help {
    wrong: b"At the server `@` came to a division by 0.",
    mend: CATCH_OUTSIDE,
};

pub const SERVER_INDEX: Help = Help {
    wrong: b"At the server `@` came to an index below 0, or not below the number of items.",
    mend: CATCH_OUTSIDE,
};

pub const SERVER_TEXT_TOO_LONG: Help = Help {
    wrong: b"At the server `@` came to a Text of more than 4096 bytes.",
    mend: CATCH_OUTSIDE,
};

pub const SERVER_LIST_TOO_LONG: Help = Help {
    wrong: b"At the server `@` came to a List of more than 10000 items.",
    mend: CATCH_OUTSIDE,
};

pub const SERVER_HEAP_FULL: Help = Help {
    wrong: b"At the server `@` would make an object, and there are 100000 already.",
    mend: CATCH_OUTSIDE,
};

pub const SERVER_THROWN: Help = Help {
    wrong: b"\"@\" was thrown at the server, and nothing caught it.",
    mend: CATCH_OUTSIDE,
};

pub const SERVER_TOO_DEEP: Help = Help {
    wrong: b"At the server `@` came to a call within 32 others, and no deeper one can be made.",
    mend: b"Let a `while` in the service do what the method does by calling itself; \
or catch the fault by a `try` around the batch.",
};

pub const SERVER_FUEL_USED: Help = Help {
    wrong: b"At the server the 1000000 units of fuel of this batch are used up: each call and each turn takes one.",
    mend: b"See whether the loop in the service ends; or divide the batch into several, of which each has as many.",
};

pub const CATCH_OUTSIDE: &[u8] =
    b"See why in the service; or catch the fault by a `try` around the whole batch.";

pub const OBJECT_LACKS: Help = Help {
    wrong: b"At the server the object isn't there, or its class has no method `@`.",
    mend: b"Compare the interface in the program with the class in the service.",
};

pub const BAD_ARGUMENTS: Help = Help {
    wrong: b"At the server the method `@` takes other arguments.",
    mend: b"Compare the interface in the program with the class in the service.",
};

pub const WRONG_KIND: Help = Help {
    wrong: b"At the server the method `@` gave another kind of value than the interface promises.",
    mend: b"Compare the interface in the program with the class in the service.",
};

pub const KIND: Help = Help {
    wrong: b"A value is of a kind that can't be used here.",
    mend: b"No program that is accepted does this by itself; see whether the server is the one that is meant.",
};

pub const INPUT_TOO_LARGE: Help = Help {
    wrong: b"The lists that this batch takes along have more than 1000 items together.",
    mend: b"Go over them in parts, by a `while` with a batch in it that takes at most 1000 along.",
};

pub const OTHER_FAULT: Help = Help {
    wrong: b"The program ended here, by a fault without a name.",
    mend: b"See whether the server is the one that is meant.",
};

// Labels beside carets.

pub const THIS_RESULT: &[u8] = b"this call's result";

pub const FLOWS_INTO: &[u8] = b"flows into `@` here";

pub const FLOWS_INTO_FIELD: &[u8] = b"flows into the field `@` here";

pub const FLOWS_INTO_OBJECT: &[u8] = b"flows into an object here";

pub const SENT_BACK: &[u8] = b"and is sent back here";

pub const DECIDED_HERE: &[u8] = b"local code decides this";

pub const WAITS_HERE: &[u8] = b"and this would wait for it";
