// The sentences on types that are found where others are wanted. `@` stands for a name or sign of the text at hand, and `#`
// for a type or for the number of a line.

// What is found.

pub const NAME_IS: &[u8] = b"`@` is of type `#`, and ";

pub const CALL_GIVES: &[u8] = b"`@` gives a value of type `#`, and ";

pub const THIS_IS: &[u8] = b"This is of type `#`, and ";

pub const GIVES_NOTHING: &[u8] = b"`@` gives no value, and ";

// What is wanted.

pub const ANOTHER_TYPE: &[u8] = b"another type is wanted here.";

pub const ONE: &[u8] = b"one is wanted here.";

pub const AN_INT: &[u8] = b"`@` wants an Int.";

pub const A_BOOL: &[u8] = b"`@` wants a Bool.";

pub const A_TEXT: &[u8] = b"`@` wants a Text.";

pub const PRINTED: &[u8] =
    b"`print` wants an Int, a Bool, a Text, Rows or an object of an interface.";

pub const TURNS: &[u8] = b"`for` wants a List or Rows.";

pub const MEASURED: &[u8] = b"`len` wants a Text or a List.";

pub const SPELLED: &[u8] = b"`str` wants an Int or a Bool.";

pub const JOINED: &[u8] = b"`+` wants an Int, a Text or a List.";

pub const COMPARED: &[u8] = b"`@` wants an Int, a Bool or a Text.";

pub const LIKE_LEFT: &[u8] = b"`@` wants the type of its left operand here.";

pub const LEFT_TYPE: &[u8] = b"`@` wants a value";

pub const AS_LEFT_IS: &[u8] = b" of type `#`, as its left operand is.";

pub const INDEXED: &[u8] = b"a List is wanted before `[`.";

pub const RECEIVER: &[u8] = b"an object of a class or an interface is wanted before `.@`.";

pub const OWNER: &[u8] = b"an object of a class is wanted before `.@`.";

pub const PARAMETER: &[u8] = b"the parameter `@` in line #";

pub const FIELD: &[u8] = b"the field `@` in line #";

pub const EACH_PARAMETER: &[u8] = b"every `fun @` takes a value";

pub const OF_TYPE_HERE: &[u8] = b" of type `#` here.";

pub const EACH_FIELD: &[u8] = b"every field `@`";

pub const IS_OF_TYPE: &[u8] = b" is of type `#`.";

pub const ITEMS: &[u8] = b"the items of this list";

pub const ARE_OF_TYPE: &[u8] = b" are of type `#`.";

pub const METHOD: &[u8] = b"`fun @` in line #";

pub const MAIN: &[u8] = b"`main` in line #";

pub const PROMISES: &[u8] = b" promises `#`.";

pub const METHOD_GIVES_NONE: &[u8] = b"`fun @` in line # returns nothing.";

pub const MAIN_GIVES_NONE: &[u8] = b"`main` in line # returns nothing.";

pub const VARIABLE: &[u8] = b"the type of `@`, declared in line #, is wanted here.";

pub const VARIABLE_TYPE: &[u8] = b"`@`, declared in line #,";

pub const SOME_VARIABLE: &[u8] = b"the type of `@` is wanted here.";

pub const SOME_FIELD: &[u8] = b"the type of the field `@` is wanted here.";

// What to do where the wanted type isn't known, or is of several.

pub const FROM_INT: &[u8] =
    b"Where a Text is wanted, `str` makes one of it; where a Bool is, compare it, as by `> 0`.";

pub const FROM_BOOL: &[u8] =
    b"Where a Text is wanted, `str` makes one of it; where an Int is, decide by `if`.";

pub const FROM_TEXT: &[u8] =
    b"A Text is joined by `+`, compared by `==` and `!=` and measured by `len`; nothing makes a number of it.";

pub const FROM_LIST: &[u8] =
    b"Take an item of it by `[..]`, the number of its items by `len`, or go over it by `for`.";

pub const FROM_ROWS: &[u8] = b"Go over the rows by `for`, within the batch.";

pub const FROM_OBJECT: &[u8] = b"Take a field of it, or call a method that gives what is wanted.";

pub const LET_IT_GIVE: &[u8] =
    b"Let the method give one, or write the call as a statement of its own.";

// What to do where the wanted type is known.

pub const LEN_OF_THIS: &[u8] = b"Write `len(@)`.";

pub const STR_MAKES_TEXT: &[u8] = b"`str` makes a Text of it.";

pub const STR_IS_NEEDLESS: &[u8] = b"It is a Text already: take `str` away.";

pub const STR_OF_THIS: &[u8] = b"If the left operand is a Text, `str` makes one of this.";

pub const STR_OF_LEFT: &[u8] =
    b"If the left operand is an Int or a Bool, `str` makes a Text of that.";

pub const STR_OF_LEFT_TYPE: &[u8] = b"`str` makes a Text of the left operand.";

pub const COMPARE_INT: &[u8] = b"Compare it, as by `> 0`.";

pub const COMPARE_TEXT: &[u8] = b"Compare it by `==` or `!=`.";

pub const DECIDE: &[u8] = b"Decide by `if` which Int is meant.";

pub const NO_NUMBER: &[u8] =
    b"`len` gives the number of its bytes; nothing makes a number of its digits.";

pub const MAKE_LIST: &[u8] =
    b"A List is made by `List<T>(..)`, with the type of its items in place of `T`.";

pub const NAME_OBJECT: &[u8] =
    b"Name such an object by a variable, or call a method that gives one.";

pub const COUNT_TURNS: &[u8] = b"Count turns by a `while`.";

pub const NO_MEMBERS: &[u8] =
    b"Take the member away: only objects have fields and methods; `str` makes a Text of this.";

pub const METHODS_ALONE: &[u8] = b"An object of an interface has methods alone: call one of them.";

pub const METHOD_RESULT: &[u8] =
    b"Take the `return` away, or write the type of the result behind the parameters.";

pub const MAIN_RESULT: &[u8] =
    b"Take the `return` away, or write the type of the result behind `main`.";

pub const MAIN_CANNOT: &[u8] =
    b"Take the `return` away: `main` gives an Int, a Bool, a Text or nothing.";

pub const CALL_ALONE: &[u8] = b"Write the call as a statement of its own.";

pub const INTERFACE_METHOD: &[u8] = b"An object of an interface has methods alone: write `@()`.";
