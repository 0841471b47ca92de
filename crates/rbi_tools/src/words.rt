// The words of the tools.

/// What is asked for, with the names of the files.
#[derive(Drop)]
pub enum Tool<'w> {
    /// `fmt FILE`: prints the text of a program or a service as it is to be laid out.
    Format(&'w str),
    /// `fmt FILE --check`: says whether the text is laid out so.
    CheckLayout(&'w str),
    /// `bytes FILE`: shows the bytes of messages, and what they are.
    Bytes(&'w str),
    /// `trace PROGRAM SERVICE [FUEL]` and `trace ADDRESS PROGRAM [FUEL]`: runs a program, and tells each of its exchanges.
    Trace(&'w [String]),
    /// `svg PROGRAM`: draws how the batches of a program are divided.
    Picture(&'w str),
}

/// The flag of `fmt`.
const CHECK: &str = "--check";

/// The tool that the words name, or None where they name none.
pub fn tool_of(words: &[String]) -> Option<Tool<'_>> {
    match words {
        [tool, file] => tool_on(tool.as_str(), file.as_str()),
        [tool, first, second] => tool_with(tool.as_str(), first.as_str(), second.as_str(), words),
        [tool, _, _, _] if tool.as_str() == "trace" => Some(Tool::Trace(&words[1..])),
        _ => None,
    }
}

/// The tool that takes one file.
fn tool_on<'w>(tool: &str, file: &'w str) -> Option<Tool<'w>> {
    match tool {
        "fmt" => Some(Tool::Format(file)),
        "bytes" => Some(Tool::Bytes(file)),
        "svg" => Some(Tool::Picture(file)),
        _ => None,
    }
}

/// The tool that takes two words.
fn tool_with<'w>(
    tool: &str,
    first: &'w str,
    second: &'w str,
    words: &'w [String],
) -> Option<Tool<'w>> {
    match (tool, first, second) {
        ("fmt", file, CHECK) | ("fmt", CHECK, file) => Some(Tool::CheckLayout(file)),
        ("trace", _, _) => words.get(1..).map(Tool::Trace),
        _ => None,
    }
}
