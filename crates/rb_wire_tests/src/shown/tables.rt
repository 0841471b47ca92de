// Objects of tables.

use crate::shown::expected::expect;
use rb_shown::object_line;
use rb_trees::{Seq, Value};
use std::test::Fail;

#[test]
fn an_object_shows_its_names_with_their_values_in_order(rt: HostRuntime) -> Result<(), Fail> {
    let alloc = rt.alloc();
    let line = object_line(alloc, 40, b"D", &[], &[])?;
    expect(&line, "object 40: D { }\n")?;
    let open = Seq::from_slice(alloc, b"open")?;
    let item = Seq::from_slice(alloc, b"item")?;
    let values = [Value::Bool(true), Value::Ref(1)];
    let line = object_line(alloc, 0, b"Shop", &[open, item], &values)?;
    expect(&line, "object 0: Shop { open = true; item = #1; }\n")
}
