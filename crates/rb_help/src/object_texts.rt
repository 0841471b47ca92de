// The sentences on objects of services. `@` stands for a name or value of the text at hand, and `#` for a number or another
// name.

use rb_pieces::Help;

pub const NO_ROOT: Help = Help {
    wrong: b"The root is object @, and no object is written with that number.",
    mend: b"Write the number of one after `root`, from 0 to #.",
};

pub const NO_ROOT_BUT_ONE: Help = Help {
    wrong: b"The root is object @, and no object is written with that number.",
    mend: b"Write `root 0;`.",
};

pub const NO_OBJECTS: Help = Help {
    wrong: b"The root is object @, and there are no objects.",
    mend: b"Write one before it: `object 0: A { }`, with a class in place of `A` and its fields.",
};

pub const OBJECT_NUMBER: Help = Help {
    wrong: b"Object # is due, and @ is written.",
    mend: b"Write `object #` here; objects are numbered 0, 1, 2 and so on, in their order.",
};

pub const BAD_REFERENCE: &[u8] = b"`#@` names an object that isn't there.";

pub const NAME_OBJECT: &[u8] =
    b"Write `object #: ..` after the other objects, of the class that is wanted, and its number here; or name one that is there.";

pub const FIELD_MISSING: Help = Help {
    wrong: b"The class `#` has a field `@`, and this object doesn't give it.",
    mend: b"Give it in the order of the class, as `@ = ..;`.",
};

pub const FIELD_DUE: Help = Help {
    wrong: b"The field `@` of the class `#` is due here.",
    mend: b"Give the fields in the order of the class, and `@` first of those that follow.",
};

pub const NO_FIELD: Help = Help {
    wrong: b"The class `#` has no field `@`.",
    mend: b"Take it away here, or declare it in the class.",
};

pub const FIELDS_DIFFER: Help = Help {
    wrong: b"The fields of an object aren't those of its class `@` in their order.",
    mend: b"Give each field of the class a value, in the order of the class.",
};

pub const OF_TYPE: &[u8] = b"The field `@` is of type `#`, and this value isn't.";

pub const WRITE_NUMBER: &[u8] = b"Write a whole number, as `7` or `-7`.";

pub const WRITE_BOOL: &[u8] = b"Write `true` or `false`.";

pub const WRITE_TEXT: &[u8] = b"Write a text in quotes: \"..\".";

pub const WRITE_LIST: &[u8] = b"Write a list in brackets, as `[..]`, with its items in it.";

pub const WRITE_ITEM: &[u8] = b"Write one item here, and not a list.";

pub const WRITE_OBJECT: &[u8] = b"Write `#` and the number of an object of class `@`.";

pub const KINDS_DIFFER: Help = Help {
    wrong: b"A value of this object isn't of its field's type, or is a list of more than 10000 items.",
    mend: b"Give each field a value of the type that the class says.",
};
