// Values as literals, each form once.

use crate::parts::{last, push, word};
use crate::shown::expected::expect;
use rb_shown::add_literal;
use rb_trees::{Memory, Seq, Shared, Value, Word};
use std::alloc::Global;
use std::test::Fail;

/// What is done to make values. A value is added to the list that began last.
#[derive(Clone, Copy)]
enum Make {
    /// Begins a list.
    Items,
    Unit,
    Int(i64),
    Bool(bool),
    Text(&'static str),
    Ref(u32),
    Remote(u32),
    /// Adds the list that began last, which is taken.
    List,
    /// The same, as a list of the service.
    Rows,
}

static MAKES: [Make; 32] = [
    Make::Items,
    // Plain values have literals.
    Make::Int(0),
    Make::Int(-12),
    Make::Int(-9_223_372_036_854_775_808),
    Make::Bool(true),
    Make::Bool(false),
    Make::Ref(17),
    // Texts are quoted and escaped.
    Make::Text(""),
    Make::Text("a\nb\"c\\d\te"),
    // Lists have commas between their items, and stand in lists.
    Make::Items,
    Make::List,
    Make::Items,
    Make::Int(1),
    Make::List,
    Make::Items,
    Make::Int(1),
    Make::Int(2),
    Make::Int(3),
    Make::List,
    Make::Items,
    Make::Items,
    Make::Int(1),
    Make::Int(2),
    Make::List,
    Make::Text("a"),
    Make::List,
    // Other values have none.
    Make::Unit,
    Make::Remote(3),
    Make::Items,
    Make::Int(1),
    Make::Int(2),
    Make::Rows,
];

/// The literals of these values, each with a semicolon behind it.
static LITERALS: &str =
    "0;-12;-9223372036854775808;true;false;#17;\"\";\"a\\nb\\\"c\\\\d\te\";[];[1];[1, 2, 3];[[1, 2], \"a\"];;;;";

/// Does what is told, on the lists that are being made.
fn add(alloc: Global, make: Make, lists: &mut Vec<Seq<Value>>) -> Result<(), Memory> {
    match make {
        Make::Items => Ok(lists.push(Seq::new(alloc))?),
        Make::Unit => push(lists, Value::Unit),
        Make::Int(number) => push(lists, Value::Int(number)),
        Make::Bool(truth) => push(lists, Value::Bool(truth)),
        Make::Text(text) => {
            let text = Shared::new(alloc, word(alloc, text)?)?;
            push(lists, Value::Text(text))
        }
        Make::Ref(object) => push(lists, Value::Ref(object)),
        Make::Remote(object) => push(lists, Value::Remote(object)),
        Make::List => {
            let items = Shared::new(alloc, last(alloc, lists))?;
            push(lists, Value::List(items))
        }
        Make::Rows => {
            let items = Shared::new(alloc, last(alloc, lists))?;
            push(lists, Value::Rows(items))
        }
    }
}

/// The values that are made so.
fn values(alloc: Global, makes: &[Make]) -> Result<Seq<Value>, Memory> {
    let mut lists = Vec::new(alloc);
    for make in makes {
        add(alloc, *make, &mut lists)?;
    }
    Ok(last(alloc, &mut lists))
}

/// Adds the literal of each value, and a semicolon.
fn add_literals(alloc: Global, values: &[Value], text: &mut Word) -> Result<(), Memory> {
    for value in values {
        add_literal(alloc, value, text)?;
        text.push(b';')?;
    }
    Ok(())
}

#[test]
fn each_form_of_a_value_has_its_literal(rt: HostRuntime) -> Result<(), Fail> {
    let values = values(rt.alloc(), &MAKES)?;
    let mut text = Seq::new(rt.alloc());
    add_literals(rt.alloc(), values.as_slice(), &mut text)?;
    expect(&text, LITERALS)
}
