// Lines and columns.
ghost use Rattle.std.specs.Prelude.{◌≡◌, ◌++◌, ◌+◌, ◌≤◌, length};
ghost use Rattle.text.specs.Put.{Put};
ghost use Rattle.assistant.specs.Place.{position_of, figure_text};

use text::put;

// Lines and columns are counted from 1; a line ends in LF, and a column is a byte.
#[derive(Clone, Copy, Debug, PartialEq, Eq)]
pub struct Position {
    pub line: usize,
    pub column: usize,
}

// The position after some bytes.
pub fn locate(before: &[u8]) -> Position
    ensures value { result ≡ position_of before.now }
    ensures le_column { (1 ≤ result.column) × (result.column ≤ length before.now + 1) }
{
    let mut line = 1;
    let mut column = 1;
    for c in before {
        if *c == b'\n' {
            line += 1;
            column = 1;
        } else {
            column += 1;
        }
    }
    Position { line, column }
}

// A number, as far as a word holds it.
pub fn figure(out: &mut [u8], at: usize, n: usize) -> usize
    ensures { Put out.old at (figure_text n) out.new result }
{
    put::decimal(out, at, n.min(u32::MAX as usize) as u32)
}

// A number after a label.
pub fn labelled(out: &mut [u8], at: usize, label: &[u8], n: usize) -> usize
    ensures { Put out.old at (label.now ++ figure_text n) out.new result }
{
    let a = put::bytes(out, at, label);
    figure(out, a, n)
}

// Two texts, one after the other.
pub fn both(out: &mut [u8], at: usize, first: &[u8], second: &[u8]) -> usize
    ensures { Put out.old at (first.now ++ second.now) out.new result }
{
    let a = put::bytes(out, at, first);
    put::bytes(out, a, second)
}
