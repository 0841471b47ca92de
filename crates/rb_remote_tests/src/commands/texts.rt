// Programs, services, requests and replies of the tests.

/// Two lines of interfaces of files, behind which the text of a program on files begins.
pub const FILES: &str =
    "interface File { fun name(): Text; fun size(): Int; fun grow(by: Int); fun check(max: Int); fun rename(to: Text); }\ninterface Dir { fun files(): Rows<File>; fun file(i: Int): File; fun burn(n: Int); }\n";

/// A service of two files.
pub const SERVICE: &str =
    "class File { name: Text; size: Int; fun name(): Text { return this.name; } fun size(): Int { return this.size; } fun grow(by: Int) { this.size = this.size + by; } fun check(max: Int) { if (this.size > max) { throw \"Big\"; } } fun rename(to: Text) { this.name = to; } }
class Dir { list: List<File>; fun files(): List<File> { return this.list; } fun file(i: Int): File { return this.list[i]; } fun burn(n: Int) { var i = 0; while (i < n) { i = i + 1; } } }
object 0: Dir { list = [#1, #2]; } object 1: File { name = \"a\"; size = 10; } object 2: File { name = \"bb\"; size = 200; } root 0;";

/// The same service, with other names of its files.
pub const OTHER_SERVICE: &str =
    "class File { name: Text; size: Int; fun name(): Text { return this.name; } fun size(): Int { return this.size; } fun grow(by: Int) { this.size = this.size + by; } fun check(max: Int) { if (this.size > max) { throw \"Big\"; } } fun rename(to: Text) { this.name = to; } }
class Dir { list: List<File>; fun files(): List<File> { return this.list; } fun file(i: Int): File { return this.list[i]; } fun burn(n: Int) { var i = 0; while (i < n) { i = i + 1; } } }
object 0: Dir { list = [#1, #2]; } object 1: File { name = \"x\"; size = 10; } object 2: File { name = \"y\"; size = 200; } root 0;";

/// The lines of the two files of the first service, behind its root.
pub const TABLE: &str =
    "object 0: Dir { list = [#1, #2]; }\nobject 1: File { name = \"a\"; size = 10; }\nobject 2: File { name = \"bb\"; size = 200; }\n";

/// A program that prints the names of two files.
pub const NAMES: &str =
    "main { batch (Dir r) { print(r.file(0).name()); print(r.file(1).name()); } }";

/// A program that prints a size in one batch, and again in another.
pub const TWICE: &str =
    "main { batch (Dir r) { print(r.file(0).size()); } batch (Dir r) { print(r.file(0).size()); } }";

/// A program of one call, and a service for it.
pub const CALL: &str = "interface D { fun n(): Int; } main { batch (D r) { print(r.n()); } }";

pub const NUMBER: &str = "class D { fun n(): Int { return 7; } } object 0: D { } root 0;";

/// The payloads of that program's request and of the reply.
pub const CALL_REQUEST: &[u8] = b"\x02\x01\x01n\x00\x01\x11\x00\x3b\x26\x3b\x01\x00\x23\x00";

pub const CALL_REPLY: &[u8] = b"\x02\x00\x00\x00\x01\x31\x01\x0e\x00";

/// The frame of a request that does nothing, and that of its reply.
pub const NOTHING: &[u8] = b"RB\x01\x00\x00\x00\x00\x00\x00\x00\x06\x01\x00\x00\x00\x00\x00";

pub const NOTHING_REPLY: &[u8] = b"RB\x02\x00\x00\x00\x00\x00\x00\x00\x06\x01\x00\x00\x00\x00\x00";

/// Two frames of such replies.
pub const NOTHING_REPLIES: &[u8] =
    b"RB\x02\x00\x00\x00\x00\x00\x00\x00\x06\x01\x00\x00\x00\x00\x00RB\x02\x00\x00\x00\x00\x00\x00\x00\x06\x01\x00\x00\x00\x00\x00";

/// A service without a root.
pub const ROOTLESS: &str = "class D { } root 0;";
