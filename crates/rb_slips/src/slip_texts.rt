// The sentences on slips that are known from other languages. `@` stands for a word of the text at hand, and `#` for a sign or
// another word.

use rb_pieces::Help;

// Other texts.

pub const IS_SERVICE: Help = Help {
    wrong: b"This is the text of a service, and a program is wanted.",
    mend: b"Name the program's file first and the service's after it, as in `rbi both PROGRAM SERVICE`.",
};

pub const IS_PROGRAM: Help = Help {
    wrong: b"This is the text of a program, and a service is wanted.",
    mend: b"Name the program's file first and the service's after it, as in `rbi both PROGRAM SERVICE`.",
};

pub const NO_INTERFACES: Help = Help {
    wrong: b"A service has no interfaces.",
    mend: b"Take this one away: a service has classes, objects and a root.",
};

// Comments.

pub const COMMENT: Help = Help {
    wrong: b"`@` begins no comment.",
    mend: b"Write `//` in its place; a comment goes on to the end of its line.",
};

pub const BLOCK_COMMENT: Help = Help {
    wrong: b"`/*` begins no comment.",
    mend: b"Begin each line of the comment by `//`.",
};

// Signs.

pub const COMPOUND: Help = Help {
    wrong: b"There is no `#=`.",
    mend: b"Write `@ = @ # ..`.",
};

pub const STEP: Help = Help {
    wrong: b"There is no `##`.",
    mend: b"Write `@ = @ # 1`.",
};

pub const THREE_SIGNS: Help = Help {
    wrong: b"There is no `#==`.",
    mend: b"Write `#=`.",
};

pub const NO_POWER: Help = Help {
    wrong: b"There is no `**`.",
    mend: b"Multiply by `*`, in a `while` where need be.",
};

pub const NO_RANGE: Help = Help {
    wrong: b"There are no ranges.",
    mend: b"Count by a `while`: `var i = 0; while (i < 10) { i = i + 1; }`.",
};

pub const THIN_ARROW: Help = Help {
    wrong: b"There is no `->`.",
    mend: b"Write `:` before the type of a result, and `.` before a member.",
};

pub const THICK_ARROW: Help = Help {
    wrong: b"There is no `=>`.",
    mend: b"Write `>=` for 'at least'; a function is a method of a class, by `fun`.",
};

pub const AT_MOST: Help = Help {
    wrong: b"There is no `=<`.",
    mend: b"Write `<=`.",
};

pub const UNEQUAL: Help = Help {
    wrong: b"There is no `<>`.",
    mend: b"Write `!=`.",
};

pub const EQUAL_WANTED: Help = Help {
    wrong: b"`=` assigns, and stands in no expression.",
    mend: b"Compare by `==`.",
};

pub const ONE_ASSIGNMENT: Help = Help {
    wrong: b"A statement has one `=`.",
    mend: b"Write a statement for each variable.",
};

pub const NO_CHAIN: Help = Help {
    wrong: b"The result of a comparison isn't compared by another `@`.",
    mend: b"Join two comparisons by `&&`, as in `a < b && b < c`; or put one into parentheses.",
};

// Words.

pub const DECLARE: Help = Help {
    wrong: b"`@` declares nothing in this language.",
    mend: b"Write `val`, or `var` for a variable that is assigned again.",
};

pub const PRINTER: Help = Help {
    wrong: b"`@` isn't known here.",
    mend: b"Write `print(..)`, which prints one value on a line of its own.",
};

pub const FUNCTION: Help = Help {
    wrong: b"`@` declares nothing in this language.",
    mend: b"Write `fun`; methods stand in classes.",
};

pub const TAKE_WORD: Help = Help {
    wrong: b"There is no `@` in this language.",
    mend: b"Take the word away.",
};

pub const ELSE_IF: Help = Help {
    wrong: b"There is no `@`.",
    mend: b"Put the second `if` into braces: `else { if (..) { .. } }`.",
};

pub const AND_WORD: Help = Help {
    wrong: b"`@` joins nothing.",
    mend: b"Write `&&`.",
};

pub const OR_WORD: Help = Help {
    wrong: b"`@` joins nothing.",
    mend: b"Write `||`.",
};

pub const NOT_WORD: Help = Help {
    wrong: b"`@` negates nothing.",
    mend: b"Write `!`.",
};

pub const CHOICE: Help = Help {
    wrong: b"There is no `@`.",
    mend: b"Write an `if` for each case: `if (x == 1) { .. } else { if (x == 2) { .. } }`.",
};

pub const LOOP: Help = Help {
    wrong: b"There is no `@`.",
    mend: b"Write `while (..) { .. }`, or `for (x in list) { .. }`.",
};

pub const IMPORT: Help = Help {
    wrong: b"There is no `@`: a program is one text.",
    mend: b"Take the line away, and declare what is used in this text.",
};

pub const INHERIT: Help = Help {
    wrong: b"There is no `@`: classes don't inherit.",
    mend: b"Take it away, and write the fields and methods into the class itself.",
};

pub const FINALLY: Help = Help {
    wrong: b"There is no `finally`.",
    mend: b"Write its statements after the `try`, and at the end of the `catch`.",
};

pub const TYPE_WORD: Help = Help {
    wrong: b"`@` declares nothing in this language.",
    mend: b"Write `class`, with the fields first and then the methods.",
};

pub const BRACE_WORD: Help = Help {
    wrong: b"There is no `@`.",
    mend: b"Put the statements into braces: `{ .. }`.",
};

pub const NO_JUMP: Help = Help {
    wrong: b"There is no `@`.",
    mend: b"Let the condition of a `while` end the loop, and put what is left out into an `if`.",
};

pub const NO_NULL: Help = Help {
    wrong: b"There is no `@`: each variable has a value.",
    mend: b"Write a value of the type that is wanted, as 0, \"\" or an empty List; or keep a Bool beside it.",
};

pub const THIS_WORD: Help = Help {
    wrong: b"`@` isn't known here.",
    mend: b"Write `this` for the object whose method it is.",
};

pub const TRUTH: Help = Help {
    wrong: b"`@` isn't known here.",
    mend: b"Write `true` or `false`, in small letters.",
};

// Headers and blocks.

pub const IN_PARENTHESES: Help = Help {
    wrong: b"What belongs to `@` stands in parentheses.",
    mend: b"Write `@ (..) { .. }`.",
};

pub const CALLED_WITH: Help = Help {
    wrong: b"What belongs to `@` stands in parentheses.",
    mend: b"Write `@(..)`.",
};

pub const ONE_CONDITION: Help = Help {
    wrong: b"The whole condition of `@` stands in one parenthesis.",
    mend: b"Put a parenthesis around all of it: `@ ((..) && (..)) { .. }`.",
};

pub const BRACES: Help = Help {
    wrong: b"The statements of `@` stand in braces, one alone too.",
    mend: b"Write `{ .. }` around them.",
};

pub const BRACED_ELSE_IF: Help = Help {
    wrong: b"There is no `else if`: what belongs to `else` stands in braces.",
    mend: b"Write `else { if (..) { .. } }`.",
};

pub const FOR_FORM: Help = Help {
    wrong: b"A `for` goes over a List or rows, and binds a name to each item.",
    mend: b"Write `for (x in list) { .. }`; count by `var i = 0; while (i < 10) { .. i = i + 1; }`.",
};

pub const FOR_IN: Help = Help {
    wrong: b"`@` can't stand here.",
    mend: b"Write `in` in its place: `for (x in list) { .. }`.",
};

pub const FOR_NAME: Help = Help {
    wrong: b"The name that a `for` binds stands without `@`.",
    mend: b"Take `@` away: `for (x in list) { .. }`.",
};

pub const CATCH_FORM: Help = Help {
    wrong: b"A `catch` has one name in its parentheses, which stands for a Text.",
    mend: b"Write `catch (problem) { .. }`.",
};

pub const BATCH_FORM: Help = Help {
    wrong: b"A `batch` has the name of an interface and then that of its root in its parentheses.",
    mend: b"Write `batch (Directory directory) { .. }`, with an interface of this program.",
};

// Declarations.

pub const VALUE_WANTED: Help = Help {
    wrong: b"`@` is declared without a value.",
    mend: b"Give it one: `# @ = ..;`.",
};

pub const TYPE_OF_VARIABLE: Help = Help {
    wrong: b"The type of a variable isn't written: it is that of its value.",
    mend: b"Write `# @ = ..;`.",
};

pub const ONE_NAME: Help = Help {
    wrong: b"A `#` declares one name.",
    mend: b"Write a `#` for each of them.",
};

pub const FUN_MAIN: Help = Help {
    wrong: b"`main` is no method.",
    mend: b"Write `main { .. }`, without `fun` and without parentheses.",
};

pub const MAIN_FORM: Help = Help {
    wrong: b"`main` takes nothing.",
    mend: b"Write `main { .. }`, or with a result `main: Int { .. }`.",
};

pub const METHOD_PLACE: Help = Help {
    wrong: b"A method stands in a class.",
    mend: b"Put it into one: `class Tools { fun @() { .. } }`, and call it by `new Tools().@()`.",
};

pub const STATEMENT_PLACE: Help = Help {
    wrong: b"A statement stands in `main` or in a method.",
    mend: b"Put it into `main { .. }`.",
};

pub const MAIN_LAST: Help = Help {
    wrong: b"Nothing stands after `main`.",
    mend: b"Move this before it: interfaces first, then classes, then `main`.",
};

pub const INTERFACES_FIRST: Help = Help {
    wrong: b"Interfaces stand before classes.",
    mend: b"Move this one before the first class.",
};

pub const CLASSES_FIRST: Help = Help {
    wrong: b"Classes stand before objects.",
    mend: b"Move this one before the first object.",
};

pub const ROOT_LAST: Help = Help {
    wrong: b"Nothing stands after the root.",
    mend: b"Move this before it: classes first, then objects, then the root.",
};

pub const CLASS_FORM: Help = Help {
    wrong: b"The name of a class or an interface is followed by `{`.",
    mend: b"Write `class @ { x: Int; fun f() { .. } }`: fields first, then methods; `new @(..)` gives the fields their values.",
};

pub const FIELD_FORM: Help = Help {
    wrong: b"A field is declared without `@`.",
    mend: b"Write its name and its type: `#: Int;`.",
};

pub const FIELDS_FIRST: Help = Help {
    wrong: b"The fields of a class stand before its methods.",
    mend: b"Move `@` before the first `fun`.",
};

pub const FIELD_VALUE: Help = Help {
    wrong: b"A field has no value in its class.",
    mend: b"Take the value away, and let `new` give it.",
};

pub const MEMBER_FORM: Help = Help {
    wrong: b"The type stands after the name.",
    mend: b"Write a field as `x: @;`, and a method as `fun f(): @ { .. }`.",
};

pub const METHOD_FORM: Help = Help {
    wrong: b"A method begins with `fun`.",
    mend: b"Write `fun @(..) { .. }`.",
};

pub const METHOD_BODY: Help = Help {
    wrong: b"A method of a class has a body.",
    mend: b"Write `{ .. }` in place of `;`.",
};

pub const INTERFACE_BODY: Help = Help {
    wrong: b"A method of an interface has no body.",
    mend: b"Write `;` in place of `{ .. }`.",
};

pub const INTERFACE_FIELD: Help = Help {
    wrong: b"An interface has methods alone.",
    mend: b"Write a method that gives it: `fun @(): Int;`, with its type.",
};

pub const INTERFACE_REMOTE: Help = Help {
    wrong: b"All methods of an interface are called at a server, and none says `remote`.",
    mend: b"Take the word `remote` away.",
};

pub const REMOTE_FUN: Help = Help {
    wrong: b"`remote` stands before `fun`.",
    mend: b"Write `remote fun`.",
};

pub const PARAMETER_FORM: Help = Help {
    wrong: b"The type of a parameter stands after its name.",
    mend: b"Write `#: @`.",
};

pub const NO_DEFAULT: Help = Help {
    wrong: b"A parameter has no value here.",
    mend: b"Take the value away, and let each call give it.",
};

pub const NO_ARGUMENTS: Help = Help {
    wrong: b"`@` takes no types in angle brackets.",
    mend: b"Write `List<T>` for a list; `@` stands without them.",
};

// Expressions.

pub const LIST_FORM: Help = Help {
    wrong: b"A List isn't written in brackets.",
    mend: b"Write `List<Int>(1, 2)`, with the type of its items.",
};

pub const LIST_TYPE: Help = Help {
    wrong: b"A List is made with the type of its items.",
    mend: b"Write `List<Int>(..)`, or another type in place of `Int`.",
};

pub const LIST_NO_NEW: Help = Help {
    wrong: b"A List is made without `new`.",
    mend: b"Write `List<Int>(..)`, with the type of its items.",
};

pub const NEW_FORM: Help = Help {
    wrong: b"`new @` is followed by the values of the fields, in parentheses.",
    mend: b"Write `new @(..)`, and `new @()` where the class has no fields.",
};

pub const NEW_WANTED: Help = Help {
    wrong: b"An object of class `@` is made by `new`.",
    mend: b"Write `new @(..)`.",
};

pub const CALL_OF_THIS: Help = Help {
    wrong: b"A method is called on an object.",
    mend: b"Write `this.@(..)` for the object itself.",
};

pub const CALL_OF_OBJECT: Help = Help {
    wrong: b"A method is called on an object.",
    mend: b"Write `object.@(..)`, with the variable or the expression that is the object.",
};

pub const NO_METHOD_WORD: Help = Help {
    wrong: b"`#` is no method.",
    mend: b"Write `#(@)`.",
};

pub const DECIMAL: Help = Help {
    wrong: b"Numbers are whole.",
    mend: b"Write an Int, as of hundredths: `150` for 1.50.",
};

pub const GLUED: Help = Help {
    wrong: b"A number has digits alone, and no name begins with one.",
    mend: b"Write a number as digits, or begin the name by a letter or `_`.",
};

pub const NO_VALUE: Help = Help {
    wrong: b"`@` is a statement, and gives no value.",
    mend: b"Declare a `var` before, and assign it within the `@`.",
};

pub const ONE_VALUE: Help = Help {
    wrong: b"`@` takes one value.",
    mend: b"Write one; texts are joined by `+`, and `str` makes a Text of an Int or a Bool.",
};

// Returns.

pub const RETURN_IN_BLOCK: Help = Help {
    wrong: b"A `return` stands at the end of a body alone, and in no block.",
    mend: b"Declare a `var` before the block, assign it here, and return it at the end of the body.",
};

pub const RETURN_VALUE: Help = Help {
    wrong: b"A `return` gives a value.",
    mend: b"Write `return ..;`; a body without a result has no `return`.",
};

pub const RETURN_LAST: Help = Help {
    wrong: b"Nothing stands after a `return`.",
    mend: b"Move this before it, or take it away.",
};

// Services.

pub const OBJECT_FORM: Help = Help {
    wrong: b"An object has a number, the name of its class and the values of its fields.",
    mend: b"Write `object 0: File { name = \"notes\"; size = 310; }`.",
};

pub const VALUE_FORM: Help = Help {
    wrong: b"A value in an object is written out, and isn't worked out.",
    mend: b"Write a number, a text, `true`, `false`, an object as `#1`, or a list as `[1, 2]`.",
};

// Bytes that begin no token.

pub const QUOTES: Help = Help {
    wrong: b"`@` begins nothing in this language.",
    mend: b"Write a text in straight double quotes: \"..\".",
};

pub const NO_QUESTION: Help = Help {
    wrong: b"There is no `?` in this language.",
    mend: b"Decide by `if`: `var x = 1; if (..) { x = 2; }`.",
};

pub const BLANK: Help = Help {
    wrong: b"This is a blank of another kind.",
    mend: b"Write a space in its place.",
};
