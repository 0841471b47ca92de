// The texts that trials run, and how.

use crate::answers::{answer, words_of};
use crate::places::{INTERFACES, Place};
use crate::rows::{expect, is_answered};
use rb_base::{MemoryFiles, MemorySink, SteadyListen};
use rb_disk::NullStores;
use rb_session::{AnyLink, FailingLink, MemoryDial};
use rb_top::{top, trial_program, trial_service};
use rb_trees::{Memory, Seq, Word};
use std::alloc::Global;
use std::str;
use std::test::Fail;

/// The program of each trial.
const PROGRAM: &str =
    r#"interface File { fun name(): Text; fun size(): Int; fun grow(by: Int); fun check(max: Int); fun rename(to: Text); }
interface Dir { fun files(): Rows<File>; fun file(i: Int): File; fun burn(n: Int); }
main { var sum = 0; var large = 0; batch (Dir r) { for (f in r.files()) { val s = f.size(); sum = sum + s; if (s > 900) { large = large + 1; f.grow(1); } } } print(sum); print(large); }
"#;

/// The service of a trial of three files.
const SERVICE: &str = r#"class File {
  name: Text;
  size: Int;
  fun name(): Text { return this.name; }
  fun size(): Int { return this.size; }
  fun grow(by: Int) { this.size = this.size + by; }
  fun check(max: Int) { if (this.size > max) { throw "Big"; } }
  fun rename(to: Text) { this.name = to; }
}
class Dir {
  list: List<File>;
  fun files(): List<File> { return this.list; }
  fun file(i: Int): File { return this.list[i]; }
  fun burn(n: Int) { var i = 0; while (i < n) { i = i + 1; } }
}
object 0: Dir { list = [#1, #2, #3]; }
object 1: File { name = "f1"; size = 617; }
object 2: File { name = "f2"; size = 234; }
object 3: File { name = "f3"; size = 851; }
root 0;
"#;

/// The program of a trial is run on a service.
static TRIAL: Place = Place {
    words: "both p s",
    interfaces: "",
    program: PROGRAM,
    service: "@",
};

/// What is printed of the trial of three files, with the table.
const THREE: &str = "0 1702\n0\ndone\nexchanges 1\n\
object 0: Dir { list = [#1, #2, #3]; }\n\
object 1: File { name = \"f1\"; size = 617; }\n\
object 2: File { name = \"f2\"; size = 234; }\n\
object 3: File { name = \"f3\"; size = 851; }";

#[test]
fn the_texts_of_a_trial_of_three_files_are_these(rt: HostRuntime) -> Result<(), Fail> {
    let alloc = rt.alloc();
    expect(
        "the program",
        trial_program().as_bytes(),
        PROGRAM.as_bytes(),
    )?;
    expect(
        "the service",
        trial_service(alloc, 3)?.as_slice(),
        SERVICE.as_bytes(),
    )?;
    is_answered(alloc, &TRIAL, "both p s", SERVICE, THREE, "these texts")
}

#[test]
fn the_texts_of_the_largest_trial_are_short_enough(rt: HostRuntime) -> Result<(), Fail> {
    let service = trial_service(rt.alloc(), 10_000)?;
    if service.len() < 1_048_576 {
        return Ok(());
    }
    Err(Fail::new(format_args!("{} bytes", service.len())))
}

/// The exit status of `trial 3` over this Dial, without a file.
fn try_three(alloc: Global, words: &[String], dial: &mut MemoryDial<FailingLink>) -> u8 {
    let mut files = MemoryFiles::make(alloc, Seq::new(alloc));
    let mut out = MemorySink::make(alloc, Seq::new(alloc), usize::MAX);
    let mut listen = SteadyListen::make(alloc, Seq::new(alloc));
    let status = top(
        alloc,
        words,
        &mut files,
        &mut out,
        dial,
        &mut listen,
        &mut NullStores,
    );
    status.code()
}

/// Whether `trial 3` ends well over a Dial, and one link came back, over which one exchange was made.
fn is_tried(alloc: Global, words: &[String], dial: &mut MemoryDial<FailingLink>) -> bool {
    let code = try_three(alloc, words, dial);
    match dial.came_back() {
        [AnyLink::Around(link)] => code == 0 && link.pairs().len() == 1,
        _ => false,
    }
}

/// The same over a Dial whose dials would fail.
fn is_tried_alone(alloc: Global) -> Result<bool, Memory> {
    let words = words_of(alloc, "trial 3")?;
    let mut dial = MemoryDial::make(alloc, Seq::from_slice(alloc, &[1, 2, 3])?);
    Ok(is_tried(alloc, words.as_slice(), &mut dial))
}

#[test]
fn a_trial_exchanges_once_and_dials_nothing(rt: HostRuntime) -> Result<(), Fail> {
    assert!(rt; is_tried_alone(rt.alloc())?);
    Ok(())
}

/// Behind the interfaces: shows the first large files of a directory, renames each, and shows the sum of all sizes.
const RENAMES: &str =
    "main { var sum = 0; var shown = 0; batch (Dir r) { for (f in r.files()) { val s = f.size(); sum = sum + s; if (s > 900) { val n = f.name(); f.rename(\"big-\" + n); if (shown < 4) { print(n); shown = shown + 1; } } } } print(sum); }";

/// The files of a thousand files, and that program.
fn add_thousand(alloc: Global, files: &mut MemoryFiles) -> Result<(), Memory> {
    let service = trial_service(alloc, 1_000)?;
    let program = format!(in alloc; "{INTERFACES}{RENAMES}")?;
    files.add("p", program.as_bytes())?;
    files.add("s", service.as_slice())
}

/// Adds what words answer on them.
fn answer_renames(alloc: Global, words: &str, into: &mut Word) -> Result<(), Memory> {
    let mut files = MemoryFiles::make(alloc, Seq::new(alloc));
    add_thousand(alloc, &mut files)?;
    answer(alloc, words, &mut files, into)
}

/// Fails unless a text is what the program shows of the thousand files.
fn names_are_shown(text: &str) -> Result<(), Fail> {
    let lines = "0 f8\nf21\nf34\nf42\n499500\ndone\nexchanges 1\nobject 0: Dir { list = [#1, #2, ";
    if !text.starts_with(lines) {
        return Err(Fail::new("other lines are shown"));
    }
    if !text.contains("\nobject 8: File { name = \"big-f8\"; size = 936; }\n") {
        return Err(Fail::new("file 8 is another"));
    }
    let count = text.split("big-").count();
    if count != 100 {
        return Err(Fail::new(format_args!("{count} pieces in place of 100")));
    }
    Ok(())
}

#[test]
fn a_large_directory_is_walked(rt: HostRuntime) -> Result<(), Fail> {
    let alloc = rt.alloc();
    let mut shown = Seq::new(alloc);
    answer_renames(alloc, "both p s", &mut shown)?;
    names_are_shown(str::from_utf8(shown.as_slice()).unwrap_or("no UTF-8"))?;
    let mut unsplit = Seq::new(alloc);
    answer_renames(alloc, "unsplit p s", &mut unsplit)?;
    expect(RENAMES, unsplit.as_slice(), shown.as_slice())
}
