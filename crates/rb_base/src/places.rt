// Lines and columns of a text.

ghost use Rattle.std.specs.Prelude.{◌≡◌, ◌<◌, ◌≤◌, ◌-◌, ◌^◌, length};
ghost use Rattle.rb_meaning.specs.Place.{line_of, column_of};

/// The line and the column of an offset of the source, both from 1. Columns count bytes.
///
/// The line feed itself stands on the line that it ends.
pub fn place(source: &[u8], at: u32) -> (u32, u32)
    requires within { at ≤ length source.now }
    requires fits { at < 2 ^ 32 - 1 }
    ensures line { result.0 ≡ line_of source.now at }
    ensures column { result.1 ≡ column_of source.now at }
{
    let mut line = 1;
    let mut column = 1;
    let before = &source[..at as usize];
    for byte in before {
        if *byte == b'\n' {
            line += 1;
            column = 1;
        } else {
            column += 1;
        }
    }
    (line, column)
}
