// The request and the reply of a batch, byte by byte.

use crate::commands::desks::Text;
use crate::commands::dialled::{Back, Row, expect_rows};
use crate::commands::texts::{FILES, SERVICE};
use std::test::Fail;

/// A run on two files.
const BOTH: Row<'static> = Row {
    words: "both p s",
    texts: &[],
    dials: &[],
    writes: &[],
    waiting: &[],
    wants: &[],
    back: Back::Nothing,
};

/// What runs on two files show, and the payloads of the one request and of the reply.
const BATCHES: &[Row<'static>] = &[
    // An empty batch.
    Row {
        texts: &[
            ("p", FILES, "main { batch (Dir r) { } }"),
            ("s", "", SERVICE),
        ],
        wants: &[
            "0 done\nexchanges 1\nobject 0: Dir { list = [#1, #2]; }\nobject 1: File { name = \"a\"; size = 10; }\nobject 2: File { name = \"bb\"; size = 200; }\n",
        ],
        back: Back::Exchange(b"\x02\x00\x00\x00", b"\x02\x00\x00\x00\x00\x00"),
        ..BOTH
    },
    // A list of three numbers goes along.
    Row {
        texts: &[
            (
                "p",
                FILES,
                "main { val by = List<Int>(1, 2, 3); batch (Dir r) { for (n in by) { r.file(0).grow(n); print(n); } } }",
            ),
            ("s", "", SERVICE),
        ],
        wants: &[
            "0 1\n2\n3\ndone\nexchanges 1\nobject 0: Dir { list = [#1, #2]; }\nobject 1: File { name = \"a\"; size = 16; }\nobject 2: File { name = \"bb\"; size = 200; }\n",
        ],
        back: Back::Exchange(
            b"\x02\x02\x04grow\x04file\x01\x04\x03\x01\x02\x01\x04\x01\x06\x01\x15\x00\xfd\x01\x00\x00\x01\x10\x01\x9e\x02\x26\x97\x02\x00\x00\x26\x8f\x02\x04\x01\x23\x01\x20\x01\x00\x01\x22\x00",
            b"\x02\x00\x00\x00\x01\x33\x00\x00\x00\x03\x00\x00\x00\x00\x00\x00\x00\x00\x00\x00\x00\x00\x00\x00\x00\x00",
        ),
        ..BOTH
    },
    // So does a list without items.
    Row {
        texts: &[
            (
                "p",
                FILES,
                "main { val which = List<Bool>(); batch (Dir r) { for (b in which) { print(str(b) + r.file(0).name()); } } }",
            ),
            ("s", "", SERVICE),
        ],
        wants: &[
            "0 done\nexchanges 1\nobject 0: Dir { list = [#1, #2]; }\nobject 1: File { name = \"a\"; size = 10; }\nobject 2: File { name = \"bb\"; size = 200; }\n",
        ],
        back: Back::Exchange(
            b"\x02\x02\x04name\x04file\x01\x04\x00\x01\x15\x00\xfa\x01\x00\x00\x01\x11\x01\x9a\x02\x25\x01\x9a\x02\x24\x04\x93\x02\x22\x00\x26\xa6\x02\x03\x00\x26\x9e\x02\x04\x01\x23\x01\x20\x01\x00\x00",
            b"\x02\x00\x00\x00\x01\x33\x00\x00\x00\x00\x00",
        ),
        ..BOTH
    },
    // An item of a list is the name of a method too, and stands once.
    Row {
        texts: &[
            (
                "p",
                FILES,
                "main { val k = 5; val names = List<Text>(\"x\", \"file\"); batch (Dir r) { for (name in names) { r.file(0).rename(name); r.file(1).grow(k); print(r.file(0).name()); } } }",
            ),
            ("s", "", SERVICE),
        ],
        wants: &[
            "0 x\nfile\ndone\nexchanges 1\nobject 0: Dir { list = [#1, #2]; }\nobject 1: File { name = \"file\"; size = 10; }\nobject 2: File { name = \"bb\"; size = 210; }\n",
        ],
        back: Back::Exchange(
            b"\x02\x05\x01x\x04file\x06rename\x04grow\x04name\x02\x04\x02\x03\x00\x03\x01\x01\x0a\x01\x15\x00\x90\x02\x00\x00\x03\x10\x01\xbc\x02\x26\xb0\x02\x00\x02\x26\xa8\x02\x04\x01\x23\x01\x20\x01\x00\x01\x22\x00\x10\x02\xcf\x02\x26\xc8\x02\x00\x03\x26\xc0\x02\x04\x01\x23\x01\x20\x01\x02\x01\x21\x01\x11\x03\xe1\x02\x26\xe1\x02\x03\x04\x26\xd9\x02\x04\x01\x23\x01\x20\x01\x00\x00",
            b"\x02\x00\x00\x00\x01\x33\x00\x00\x00\x02\x00\x00\x00\x01\x31\x03\x01x\x00\x00\x00\x00\x01\x31\x03\x04file\x00\x00",
        ),
        ..BOTH
    },
];

#[test]
fn a_batch_is_sent_in_version_2(rt: HostRuntime) -> Result<(), Fail> {
    expect_rows(rt.alloc(), BATCHES)
}
