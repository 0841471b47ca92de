// That calls succeed where there is memory, and the text of the error.

use crate::expected::expect;
use rb_trees::{Boxed, Memory, Seq, Shared, Value, copy_values};
use std::test::Fail;

/// Fails unless this holds.
fn holds(truth: bool) -> Result<(), Fail> {
    if truth {
        return Ok(());
    }
    Err(Fail::new("a value isn't as it was made"))
}

/// Whether a list without items has each that is pushed, and none that is cut. The first two of 5, 6 and 7 stay, which
/// are the items of the whole one.
fn grows_and_is_cut(list: &mut Seq<u8>, whole: &Seq<u8>) -> Result<bool, Memory> {
    let is_empty = list.is_empty();
    for item in [5u8, 6, 7] {
        list.push(item)?;
    }
    let grown = *list == *whole && list.get(1) == Some(&6) && list.get(3).is_none();
    list.truncate(2);
    Ok(is_empty && grown && list.len() == 2 && *list != *whole)
}

#[test]
fn a_list_grows_and_is_cut(rt: HostRuntime) -> Result<(), Fail> {
    let whole = Seq::from_slice(rt.alloc(), &[5, 6, 7])?;
    let mut list = Seq::new(rt.alloc());
    let as_made = grows_and_is_cut(&mut list, &whole);
    let left = list.into_vec();
    holds(as_made? && left.as_slice() == [5, 6].as_slice())
}

#[test]
fn a_box_holds_its_value(rt: HostRuntime) -> Result<(), Fail> {
    let boxed = Boxed::new(rt.alloc(), 7u32)?;
    let same = Boxed::new(rt.alloc(), 7)?;
    let other = Boxed::new(rt.alloc(), 8)?;
    let as_made = *boxed.get() == 7 && boxed == same && boxed != other;
    holds(as_made && boxed.into_inner() == 7)
}

#[test]
fn a_value_has_several_owners(rt: HostRuntime) -> Result<(), Fail> {
    let one = Shared::new(rt.alloc(), 7u32)?;
    let other = one.share()?;
    holds(*one.get() == 7 && *other.get() == 7)
}

#[test]
fn values_are_copied(rt: HostRuntime) -> Result<(), Fail> {
    let alloc = rt.alloc();
    let text = Value::Text(Shared::new(alloc, Seq::from_slice(alloc, b"text")?)?);
    let rows = Value::Rows(Shared::new(alloc, Seq::new(alloc))?);
    let copies = copy_values(alloc, &[Value::Int(-7), text, rows])?;
    holds(copies.len() == 3)
}

#[test]
fn want_of_memory_has_a_text(rt: HostRuntime) -> Result<(), Fail> {
    let text = format!(in rt.alloc(); "{Memory}")?;
    expect("Memory", text.as_bytes(), b"out of memory")
}
