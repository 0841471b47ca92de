// The text of a service of many files.

use rb_trees::Memory;
use std::alloc::Global;

/// The classes of the service.
static CLASSES: &str = "class File {
  name: Text;
  size: Int;
  fun name(): Text { return this.name; }
  fun size(): Int { return this.size; }
  fun grow(by: Int) { this.size = this.size + by; }
  fun check(max: Int) { if (this.size > max) { throw \"Big\"; } }
  fun rename(to: Text) { this.name = to; }
}
class Dir {
  list: List<File>;
  fun files(): List<File> { return this.list; }
}
";

/// The text of the service whose root has so many files, with names and sizes of their own.
pub fn service_text(alloc: Global, files: u32) -> Result<String, Memory> {
    let mut text = String::from_str(alloc, CLASSES)?;
    add_directory(&mut text, files)?;
    for file in 0..files {
        add_file(&mut text, u64::from(file) + 1)?;
    }
    text.push_str("root 0;\n")?;
    Ok(text)
}

/// Adds the root, whose list has so many files.
fn add_directory(text: &mut String, files: u32) -> Result<(), Memory> {
    text.push_str("object 0: Dir { list = [")?;
    for file in 0..files {
        let before = if file == 0 { "#" } else { ", #" };
        let number = u64::from(file) + 1;
        write!(text, "{before}{number}")?;
    }
    text.push_str("]; }\n")?;
    Ok(())
}

/// Adds the file of a number.
fn add_file(text: &mut String, number: u64) -> Result<(), Memory> {
    let size = number.wrapping_mul(617) % 1000;
    write!(
        text,
        "object {number}: File {{ name = \"f{number}\"; size = {size}; }}\n"
    )?;
    Ok(())
}
