// The texts of a trial: a program, and a service of so many files.

ghost use Rattle.std.specs.Prelude.{◌≡◌, IfOk};
ghost use Rattle.rb_shown.specs.Appends.{Appends};
ghost use Rattle.rb_top.specs.Trials.{trial_classes, trial_directory, trial_in_memory, trial_object, trial_objects, trial_program, trial_reference, trial_references, trial_service, trial_size};

use rb_base::MemoryFiles;
use rb_trees::{Memory, Seq, Word};
use std::alloc::Global;

/// The program: one batch over the files of a directory, which sums their sizes, counts the large ones, and lets those grow.
#[tactic(auto, unfolding(crate::specs::Trials::trial_program))]
pub fn trial_program() -> &'static str
    ensures { result.now ≡ trial_program }
{
    "\
interface File { fun name(): Text; fun size(): Int; fun grow(by: Int); fun check(max: Int); fun rename(to: Text); }\n\
interface Dir { fun files(): Rows<File>; fun file(i: Int): File; fun burn(n: Int); }\n\
main { var sum = 0; var large = 0; batch (Dir r) { for (f in r.files()) \
{ val s = f.size(); sum = sum + s; if (s > 900) { large = large + 1; f.grow(1); } } } \
print(sum); print(large); }\n"
}

/// The classes of the service.
#[tactic(auto, unfolding(crate::specs::Trials::trial_classes))]
fn trial_classes() -> &'static str
    ensures { result.now ≡ trial_classes }
{
    r#"class File {
  name: Text;
  size: Int;
  fun name(): Text { return this.name; }
  fun size(): Int { return this.size; }
  fun grow(by: Int) { this.size = this.size + by; }
  fun check(max: Int) { if (this.size > max) { throw "Big"; } }
  fun rename(to: Text) { this.name = to; }
}
class Dir {
  list: List<File>;
  fun files(): List<File> { return this.list; }
  fun file(i: Int): File { return this.list[i]; }
  fun burn(n: Int) { var i = 0; while (i < n) { i = i + 1; } }
}
"#
}

/// Adds the file of a number to a list, where so many others stand before it.
fn add_reference(alloc: Global, others: u64, number: u64, into: &mut Word) -> Result<(), Memory>
    ensures { Appends (trial_reference others number) into.old result into.new }
{
    let text = if others == 0 {
        format!(in alloc; "#{number}")?
    } else {
        format!(in alloc; ", #{number}")?
    };
    into.extend_from_slice(text.as_bytes())
}

/// Adds the list of the files from 1 to a count.
fn add_references(alloc: Global, count: u64, into: &mut Word) -> Result<(), Memory>
    ensures { Appends (trial_references count) into.old result into.new }
{
    for others in 0..count {
        add_reference(alloc, others, others + 1, into)?;
    }
    Ok(())
}

/// Adds the directory of so many files.
#[tactic(auto, using(crate::proofs::Lines::pieces))]
fn add_directory(alloc: Global, count: u64, into: &mut Word) -> Result<(), Memory>
    ensures { Appends (trial_directory count) into.old result into.new }
{
    into.extend_from_slice(b"object 0: Dir { list = [")?;
    add_references(alloc, count, into)?;
    into.extend_from_slice(b"]; }\n")
}

/// The size of a file.
fn trial_size(number: u64) -> u64
    ensures { result ≡ trial_size number }
{
    number % 1_000 * 617 % 1_000
}

/// Adds a file.
fn add_object(alloc: Global, number: u64, into: &mut Word) -> Result<(), Memory>
    ensures { Appends (trial_object number) into.old result into.new }
{
    let size = trial_size(number);
    let text = format!(in alloc;
        "object {number}: File {{ name = \"f{number}\"; size = {size}; }}\n"
    )?;
    into.extend_from_slice(text.as_bytes())
}

/// Adds the files from 1 to a count.
fn add_objects(alloc: Global, count: u64, into: &mut Word) -> Result<(), Memory>
    ensures { Appends (trial_objects count) into.old result into.new }
{
    for others in 0..count {
        add_object(alloc, others + 1, into)?;
    }
    Ok(())
}

/// The service of so many files. Its error is that memory ran out.
#[tactic(auto, using(crate::proofs::Lines::pieces))]
pub fn trial_service(alloc: Global, count: u64) -> Result<Word, Memory>
    ensures { IfOk result (λ text. text ≡ trial_service count) }
{
    let mut text = Seq::from_slice(alloc, trial_classes().as_bytes())?;
    add_directory(alloc, count, &mut text)?;
    add_objects(alloc, count, &mut text)?;
    text.extend_from_slice(b"root 0;\n")?;
    Ok(text)
}

/// Files in memory that hold the program as `p` and the service of so many files as `s`.
pub fn trial_files(alloc: Global, count: u64) -> Result<MemoryFiles, Memory>
    ensures { IfOk result (λ files. files ≡ trial_in_memory count) }
{
    let service = trial_service(alloc, count)?;
    let mut files = MemoryFiles::make(alloc, Seq::new(alloc));
    files.add("p", trial_program().as_bytes())?;
    files.add("s", service.as_slice())?;
    Ok(files)
}
