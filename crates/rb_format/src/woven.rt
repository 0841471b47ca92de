// Whether a text is a printed one with comments among its lines.

ghost use Rattle.std.specs.Prelude.{◌<◌, length, IsTrue, IfSome};
ghost use Rattle.rb_format.specs.Woven.{BeginsWithLine, EndsAs, IsCommentLine, IsWoven};

use memchr::memchr;

/// Whether a text is a printed one, line by line, but for comments.
pub fn is_woven(printed: &[u8], text: &[u8]) -> bool
    ensures { IsTrue result → IsWoven printed.now text.now }
{
    let mut left = printed;
    let mut rest = text;
    while !rest.is_empty() {
        match step(left, rest) {
            Some((more, behind)) => {
                left = more;
                rest = behind;
            }
            None => return false,
        }
    }
    left.is_empty()
}

// What is left of a printed text and of another behind the first line of that one: a comment, or the next line printed.
fn step<'a>(printed: &'a [u8], text: &'a [u8]) -> Option<(&'a [u8], &'a [u8])>
    ensures goes { IfSome result (λ left. IsWoven left.0.now left.1.now → IsWoven printed.now text.now) }
    ensures shorter { IfSome result (λ left. length left.1.now < length text.now) }
{
    let (line, behind) = first_line(text)?;
    if is_comment_line(line) {
        return Some((printed, behind));
    }
    let (wanted, more) = first_line(printed)?;
    if ends_as(wanted, line) {
        Some((more, behind))
    } else {
        None
    }
}

// The first line of a text without its line feed, and what stands behind that, if there is a line feed.
fn first_line(text: &[u8]) -> Option<(&[u8], &[u8])>
    ensures { IfSome result (λ parts. BeginsWithLine text.now parts.0.now parts.1.now) }
{
    match memchr(b'\n', text) {
        Some(at) => Some((&text[..at], &text[at + 1..])),
        None => None,
    }
}

// Whether a line is a comment, with blanks before it at most.
fn is_comment_line(line: &[u8]) -> bool
    ensures { IsTrue result → IsCommentLine line.now }
{
    line.trim_ascii_start().starts_with(b"//")
}

// Whether a line is the wanted one, with no more than a comment behind it.
fn ends_as(wanted: &[u8], line: &[u8]) -> bool
    ensures { IsTrue result → EndsAs wanted.now line.now }
{
    match line.strip_prefix(wanted) {
        Some(behind) => behind.is_empty() || behind.starts_with(b"  //"),
        None => false,
    }
}
