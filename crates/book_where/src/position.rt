//! Lines and columns.
ghost use Rattle.std.specs.Prelude.{◌≡◌, ℕ, ◌+◌, ◌<◌, ◌≤◌, ◌^◌, ◌==◌, List, ◌∷◌, length};
ghost use Rattle.book_where.specs.Position.{line_of, column_of, begins_character, ends_line, fills_column, Reached};

/// A place as an editor names it: the line, and the column in characters, both from 1.
#[derive(Clone, Copy, Debug, PartialEq, Eq)]
pub struct Position {
    pub line: usize,
    pub column: usize,
}

fn begins_character(byte: u8) -> bool
    ensures value { result ≡ begins_character byte }
{
    !(0x80..=0xBF).contains(&byte)
}

/// Whether a line ends with this byte, right behind a CR or not. The LF of a CR LF ends no line of its own.
fn ends_line(byte: u8, was_cr: bool) -> bool
    ensures value { result ≡ ends_line was_cr byte }
{
    byte == b'\r' || (byte == b'\n' && !was_cr)
}

/// Whether a column more stands behind this byte of a line.
fn fills_column(byte: u8) -> bool
    ensures value { result ≡ fills_column byte }
{
    byte != b'\n' && begins_character(byte)
}

impl Position {
    /// The position behind one more byte.
    fn past(self, byte: u8, was_cr: bool) -> Position
        requires room { (self.line < 2 ^ 63) × (self.column < 2 ^ 63) }
        ensures within { (result.line ≤ self.line + 1) × (result.column ≤ self.column + 1) }
        ensures value { (text rest : List ℕ) → Reached text (byte ∷ rest) was_cr self.line self.column → Reached text rest (byte == 13) result.line result.column }
    {
        if ends_line(byte, was_cr) {
            return Position {
                line: self.line + 1,
                column: 1,
            };
        }
        if fills_column(byte) {
            return Position {
                line: self.line,
                column: self.column + 1,
            };
        }
        self
    }
}

/// The position at which a text ends.
pub fn position_behind(text: &[u8]) -> Position
    ensures line { result.line ≡ line_of text.now }
    ensures column { result.column ≡ column_of text.now }
{
    let mut position = Position { line: 1, column: 1 };
    let mut was_cr = false;
    for byte in text {
        position = position.past(*byte, was_cr);
        was_cr = *byte == b'\r';
    }
    position
}
