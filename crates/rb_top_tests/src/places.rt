// Words and files that commands are tried on.

/// Words and files, in which a text stands at the `@`. A file of the text `(none)` isn't there.
pub struct Place {
    /// Lines of words, of which each is tried.
    pub words: &'static str,
    /// What stands before the program.
    pub interfaces: &'static str,
    /// The file `p`.
    pub program: &'static str,
    /// The file `s`.
    pub service: &'static str,
}

/// The two lines of interfaces before most programs with batches.
pub const INTERFACES: &str = "\
interface File { fun name(): Text; fun size(): Int; fun grow(by: Int); fun check(max: Int); fun rename(to: Text); }\n\
interface Dir { fun files(): Rows<File>; fun file(i: Int): File; fun burn(n: Int); }\n";

/// Interfaces with results of each kind.
const WIDE: &str = "\
interface File { fun name(): Text; fun size(): Int; fun ok(): Bool; fun sizes(): Rows<Int>; fun tags(): Rows<Text>; fun flags(): Rows<Bool>; fun next(): File; fun set(n: Int, b: Bool, t: Text); }\n\
interface Dir { fun files(): Rows<File>; fun file(i: Int): File; fun best(f: File): File; }\n";

/// Interfaces that differ from the classes of the directory.
const DIFFERING: &str = "\
interface File { fun size(): Text; fun lost(); }\n\
interface Dir { fun file(i: Int): File; }\n";

/// A directory of two files.
const FILES: &str = "\
class File { name: Text; size: Int; fun name(): Text { return this.name; } fun size(): Int { return this.size; } fun grow(by: Int) { this.size = this.size + by; } fun check(max: Int) { if (this.size > max) { throw \"Big\"; } } fun rename(to: Text) { this.name = to; } }\n\
class Dir { list: List<File>; fun files(): List<File> { return this.list; } fun file(i: Int): File { return this.list[i]; } fun burn(n: Int) { var i = 0; while (i < n) { i = i + 1; } } }\n\
object 0: Dir { list = [#1, #2]; }\n\
object 1: File { name = \"a\"; size = 10; }\n\
object 2: File { name = \"bb\"; size = 200; }\n\
root 0;\n";

/// A program of one batch, which prints a number.
pub const PROGRAM: &str = r#"interface D { fun n(): Int; } main { batch (D r) { print(r.n()); } }"#;

/// A service for it.
pub const SERVICE: &str = r#"class D { fun n(): Int { return 7; } } object 0: D { } root 0;"#;

/// A program is checked.
pub static CHECK: Place = Place {
    words: "check p",
    interfaces: "",
    program: "@",
    service: "(none)",
};

/// A program behind the interfaces is checked.
pub static CHECK_BATCHES: Place = Place {
    words: "check p",
    interfaces: INTERFACES,
    program: "@",
    service: "(none)",
};

/// The batches of a program behind the interfaces are shown.
pub static SPLIT: Place = Place {
    words: "split p",
    interfaces: INTERFACES,
    program: "@",
    service: "(none)",
};

/// The batches of a program behind the interfaces with results of each kind are shown.
pub static SPLIT_WIDE: Place = Place {
    words: "split p",
    interfaces: WIDE,
    program: "@",
    service: "(none)",
};

/// A program is run on the directory, divided and undivided.
pub static DIRECTORY: Place = Place {
    words: "both p s\nunsplit p s",
    interfaces: INTERFACES,
    program: "@",
    service: FILES,
};

/// A program behind interfaces that differ from the classes of the directory is run there, divided and undivided.
pub static OTHER_DIRECTORY: Place = Place {
    words: "both p s\nunsplit p s",
    interfaces: DIFFERING,
    program: "@",
    service: FILES,
};

/// A program is run on the service of one number.
pub static NUMBER: Place = Place {
    words: "both p s",
    interfaces: "",
    program: "@",
    service: SERVICE,
};

/// A program is to be run without a service.
pub static NO_SERVICE: Place = Place {
    words: "both p s",
    interfaces: "",
    program: "@",
    service: "(none)",
};

/// The program of one print is run on a service.
pub static PRINT: Place = Place {
    words: "both p s",
    interfaces: "",
    program: PROGRAM,
    service: "@",
};

/// The program of three prints is run on a service.
pub static THREE_PRINTS: Place = Place {
    words: "both p s",
    interfaces: "",
    program: r#"interface D { fun n(): Int; } main { batch (D r) { print(r.n()); print(r.n()); print(r.n()); } }"#,
    service: "@",
};

/// The program that does nothing is run on a service.
pub static NOTHING: Place = Place {
    words: "both p s",
    interfaces: "",
    program: "main { }",
    service: "@",
};

/// A batch is performed on a service of several numbers.
pub static BATCH: Place = Place {
    words: "both p s",
    interfaces: "",
    program: "interface D { fun n(): Int; fun m(): Int; fun z(): Int; }\nmain { batch (D r) { @ } }\n",
    service: r#"class D { fun z(): Int { return 0; } fun k(): Int { return 5; } fun n(): Int { return 7; } fun m(): Int { return 12; } } object 0: D { } root 0;"#,
};
