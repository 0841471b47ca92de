// The sentences on requests in JSON. `@` stands for the name of the file, and `#` for the number of a value.

use rb_pieces::Help;

pub const NOT_JSON: Help = Help {
    wrong: b"`@` isn't JSON, or has more than 127 arrays and objects within each other.",
    mend: b"Let a library for JSON write it. It is UTF-8, and each number is within the range of a double.",
};

pub const WRONG_FORM: Help = Help {
    wrong: b"Value # of `@` is the first that isn't as requests have it.",
    mend: b"Values are counted from 0: an array or object before what is in it, and its members in the order of their keys. \
docs/json.md has the form of requests.",
};
