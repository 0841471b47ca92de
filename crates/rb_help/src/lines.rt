// The lines of a text around places.

ghost use Rattle.std.specs.Prelude.{◌≡◌, ◌-◌, ◌≤◌, length, not};
ghost use Rattle.std.specs.List.{suffix_len, position_or_len};
ghost use Rattle.rb_meaning.specs.Place.{is_line_feed, line_of};
ghost use Rattle.rb_help.specs.Lines as words;
ghost use Rattle.rb_help.specs.Lines.{before_place};

/// The line of a place, and how many of its bytes stand before the place.
#[derive(Clone, Copy)]
pub struct Line<'a> {
    pub bytes: &'a [u8],
    pub offset: usize,
}

/// The number of the line of a place, from 1. A place behind the end is the end.
pub fn line_number(source: &[u8], at: u32) -> usize
    ensures { result ≡ line_of source.now at }
{
    let place = (at as usize).min(source.len());
    let before = &source[..place];
    1 + before.iter().filter(|b| **b == b'\n').count()
}

/// Where the last line of a text begins.
fn start_of_last(text: &[u8]) -> usize
    ensures within { result ≤ length text.now }
    ensures start { result ≡ length text.now - suffix_len (λ b. not (is_line_feed b)) text.now }
{
    let mut start = text.len();
    while start > 0 && text[start - 1] != b'\n' {
        start -= 1;
    }
    start
}

/// How long the first line of a text is, without its line feed.
pub fn length_of_first(text: &[u8]) -> usize
    ensures within { result ≤ length text.now }
    ensures count { result ≡ position_or_len is_line_feed text.now }
{
    for (count, byte) in text.iter().enumerate() {
        if *byte == b'\n' {
            return count;
        }
    }
    text.len()
}

/// Where the line of a place within the text begins.
pub fn line_start(source: &[u8], place: usize) -> usize
    requires { place ≤ length source.now }
    ensures { result ≡ place - length (before_place source.now place) }
{
    start_of_last(&source[..place])
}

/// The line of a place within the text.
pub fn line_within(source: &[u8], place: usize) -> Line<'_>
    requires { place ≤ length source.now }
    ensures line { result.bytes.now ≡ words.line_at source.now place }
    ensures offset { result.offset ≡ length (before_place source.now place) }
    ensures within { result.offset ≤ length result.bytes.now }
{
    let (before, rest) = source.split_at(place);
    let start = start_of_last(before);
    let end = place + length_of_first(rest);
    Line {
        bytes: &source[start..end],
        offset: place - start,
    }
}

/// The line of a place: `line_at`. A place behind the end is the end.
pub fn line_at(source: &[u8], at: u32) -> Line<'_>
    ensures line { result.bytes.now ≡ words.line_at source.now at }
    ensures offset { result.offset ≡ length (before_place source.now at) }
    ensures within { result.offset ≤ length result.bytes.now }
{
    let place = at as usize;
    if place > source.len() {
        line_within(source, source.len())
    } else {
        line_within(source, place)
    }
}
