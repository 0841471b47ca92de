// Commands over a Dial and a listener in memory, with what they answer and print.

ghost use Rattle.std.specs.Prelude.{◌≡◌};

use crate::commands::desks::{Asked, desk_of};
use crate::commands::texts::{FILES, NUMBER, ROOTLESS, SERVICE};
use rb_base::{Link, Listen, SteadyListen};
use rb_disk::{NullStores, Stores};
use rb_session::{Dial, MemoryDial, NullDial, Target};
use rb_top::top;
use rb_trees::Seq;
use std::alloc::Global;
use std::test::Fail;

/// Fails where an exit status, before what was written, isn't what a command is to show.
fn same_shown(alloc: Global, asked: &Asked<'_>, code: u8, written: &[u8]) -> Result<(), Fail> {
    let text = str::from_utf8(written)?;
    let shown = format!(in alloc; "{code} {text}")?;
    match shown.as_str().strip_prefix(asked.said) {
        Some(end) if end == asked.rest => Ok(()),
        _ => Err(Fail::new(format_args!(
            "{shown:?} in place of {:?} and {:?}, by {}",
            asked.said, asked.rest, asked.words
        ))),
    }
}

/// Fails where a command shows something else than it is to, over a Dial, a listener and stores.
pub fn expect_on<D: Dial, N: Listen, T: Stores>(
    alloc: Global,
    asked: &Asked<'_>,
    dial: &mut D,
    listen: &mut N,
    stores: &mut T,
) -> Result<(), Fail> {
    let mut desk = desk_of(alloc, asked)?;
    let status = top(
        alloc,
        desk.words.as_slice(),
        &mut desk.files,
        &mut desk.out,
        dial,
        listen,
        stores,
    );
    same_shown(alloc, asked, status.code(), desk.out.written())
}

/// Fails where a command shows something else than it is to, over a Dial, where no session comes.
pub fn expect_over<D: Dial>(alloc: Global, asked: &Asked<'_>, dial: &mut D) -> Result<(), Fail> {
    let mut listen = SteadyListen::make(alloc, Seq::new(alloc));
    expect_on(alloc, asked, dial, &mut listen, &mut NullStores)
}

/// A command on a text: its words, the text, and what is shown then, a beginning and the rest.
pub type Row<'a> = (&'a str, &'a str, &'a str, &'a str);

/// Fails at the first row that shows something else, where nothing is dialled and its text is in the file of this name, beside a
/// service of two files, one of one object, and one without a root.
pub fn expect_rows(alloc: Global, name: &str, rows: &[Row<'_>]) -> Result<(), Fail> {
    for (words, text, said, rest) in rows {
        let asked = Asked {
            words,
            texts: &[
                (name, "", text),
                ("s", "", SERVICE),
                ("d", "", NUMBER),
                ("n", "", ROOTLESS),
            ],
            reads: &[],
            writes: &[],
            said,
            rest,
        };
        expect_over(alloc, &asked, &mut NullDial::make(alloc))?;
    }
    Ok(())
}

/// Fails where `run a p` shows something else of a program on files than is wanted, over a Dial with this link at `a`.
pub fn expect_run<L: Link + Drop>(
    alloc: Global,
    main: &str,
    link: L,
    want: &str,
) -> Result<(), Fail>
    requires { L.faults link ≡ 0 }
{
    let address = Target::Address(Seq::from_slice(alloc, b"a")?);
    let mut dial = MemoryDial::make(alloc, Seq::new(alloc));
    dial.add(address, link)?;
    let asked = Asked {
        words: "run a p",
        texts: &[("p", FILES, main)],
        reads: &[],
        writes: &[],
        said: want,
        rest: "",
    };
    expect_over(alloc, &asked, &mut dial)
}
