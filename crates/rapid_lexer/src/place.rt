ghost use Rattle.std.specs.Prelude.{◌≡◌, ◌≤◌, ◌<◌, ◌^◌, length};
ghost use Rattle.rapid_lexer.specs.Places.{line_of, column_of};

/// A position in a text for people: the line from 1, where lines end with a line feed, and the column from 1, in bytes.
#[derive(Clone, Copy, Debug, PartialEq, Eq)]
pub struct Place {
    pub line: u32,
    pub column: u32,
}

/// The line and the column of the byte at a position, from 0. The position may be the end.
pub fn place_of(source: &[u8], at: usize) -> Place
    requires within { at ≤ length source.now }
    requires short { length source.now < 2 ^ 31 }
    ensures line { result.line ≡ line_of source.now at }
    ensures column { result.column ≡ column_of source.now at }
{
    let mut line = 1;
    let mut column = 1;
    for byte in &source[..at] {
        if *byte == 10 {
            line += 1;
            column = 1;
        } else {
            column += 1;
        }
    }
    Place { line, column }
}
