// The pieces of a line, which are separated by single spaces: numbers and words, and words side by side.
ghost use Rattle.std.specs.Prelude.{◌≡◌, [], ◌∷◌, ◌+◌, ◌≤◌, ◌<◌, ◌==◌, length, drop, position};
ghost use Rattle.std.specs.Option.{SomeIff};
ghost use Rattle.requests.specs.Pieces.{up_to, digit_of, number_of, word_of, piece_at, pieces_at, number_at, decimal_at, word_at, same_bytes, is_word, run_from, leading};
ghost use Rattle.text.specs.Put.{Put};

use crate::listed;
use crate::listed::{Listed, Run};
use text::{part, put};

// A number that a piece says, and where the next piece begins.
#[derive(Clone, Copy)]
pub struct Number {
    pub value: u32,
    pub next: usize,
}

// What a digit stands for.
pub fn digit(c: u8) -> Option<u32>
    ensures { SomeIff result (digit_of c < 16) (digit_of c) }
{
    char::from(c).to_digit(16)
}

// The number that digits say.
fn value(digits: &[u8], base: u32) -> Option<u32>
    requires { (2 ≤ base) × (base ≤ 16) }
    ensures { result ≡ number_of base digits.now }
{
    if digits.is_empty() {
        return None;
    }
    let mut value: u32 = 0;
    for c in digits {
        let digit = char::from(*c).to_digit(base)?;
        value = value.checked_mul(base)?.checked_add(digit)?;
    }
    Some(value)
}

fn first(bytes: &[u8], mark: u8) -> Option<usize>
    ensures { result ≡ position (λ c. c == mark) bytes.now }
{
    bytes.iter().position(|c| *c == mark)
}

// The bytes from a position up to a mark.
pub fn up_to(line: &[u8], from: usize, mark: u8) -> &[u8]
    ensures { result.now ≡ up_to mark (drop from line.now) }
{
    let tail = part::rest(line, from);
    part::front(tail, first(tail, mark).unwrap_or(tail.len()))
}

// Where they end.
pub fn end_of(line: &[u8], from: usize, mark: u8) -> usize
    ensures { result ≡ from + length (up_to mark (drop from line.now)) }
{
    from + up_to(line, from, mark).len()
}

// The piece that begins at a position.
pub fn piece(line: &[u8], at: usize) -> &[u8]
    ensures { result.now ≡ piece_at line.now at }
{
    up_to(line, at, b' ')
}

// The bytes up to a mark as a number in decimal digits.
pub fn decimal(line: &[u8], at: usize, mark: u8) -> Option<Number>
    ensures { result ≡ decimal_at mark line.now at }
{
    let digits = up_to(line, at, mark);
    let value = value(digits, 10)?;
    Some(Number {
        value,
        next: at + digits.len() + 1,
    })
}

// A word has one to eight hexadecimal digits.
impl Listed for u32 {
    ghost read = { word_of };

    ghost in_words = { λ w. w ∷ [] };

    fn read(piece: &[u8]) -> Option<u32> {
        if piece.len() > 8 {
            return None;
        }
        value(piece, 16)
    }

    fn put(self, out: &mut [u32], at: usize) -> usize {
        put::word(out, at, self)
    }
}

pub fn word(line: &[u8], at: usize) -> Option<Number>
    ensures { result ≡ word_at line.now at }
{
    let digits = piece(line, at);
    let value = u32::read(digits)?;
    Some(Number {
        value,
        next: at + digits.len() + 1,
    })
}

pub fn same(a: &[u8], b: &[u8]) -> bool
    ensures { result ≡ same_bytes a.now b.now }
{
    a == b
}

// The piece that begins at a position is these bytes.
pub fn is(line: &[u8], at: usize, text: &[u8]) -> bool
    ensures { result ≡ same_bytes (piece_at line.now at) text.now }
{
    same(piece(line, at), text)
}

// The words side by side from a position on.
pub fn words(line: &[u8], from: usize) -> Run
    ensures { result ≡ run_from is_word 0 from (pieces_at line.now from) }
{
    listed::side_by_side::<u32>(line, from)
}

// The same words, put at the front of a buffer.
pub fn gather(line: &[u8], from: usize, out: &mut [u32]) -> usize
    ensures { Put out.old 0 (leading (pieces_at line.now from)) out.new result }
{
    listed::gather::<u32>(line, from, out)
}
