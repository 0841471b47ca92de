// What no clause says: that programs run well where there is memory.

use crate::engine::classes;
use crate::engine::runs::{Row, expect_asked};
use std::test::Fail;

static ROWS: [Row; 4] = [
    (
        "lines are printed in order",
        "main { print(7 - 2 * 3); print(\"a\" + str(-4 / 3)); print(false && 1 / 0 == 1); }",
        0,
        "1\na-1\nfalse\n",
    ),
    (
        "loops take their turns",
        "main { var i = 0; while (i < 2) { i = i + 1; } for (x in List<Int>(i, 9)) { print(x); } }",
        4,
        "an item\n2\nan item\n9\n",
    ),
    (
        "faults are caught but for want of fuel",
        "main { try { throw \"no\"; } catch (t) { print(t); } try { while (true) { } } catch (f) { print(f); } }",
        3,
        "no\nno fuel\n",
    ),
    (
        "names of a block go with it",
        "main { val x = 1; if (true) { val x = 2; val y = 3; } print(x); try { print(y); } catch (f) { print(f); } }",
        0,
        "1\nKind\n",
    ),
];

#[test]
fn programs_ask_these_lines(rt: HostRuntime) -> Result<(), Fail> {
    expect_asked(rt.alloc(), &ROWS)?;
    expect_asked(rt.alloc(), &classes::ROWS)
}
