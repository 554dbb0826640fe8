// Bytes in a line: two hexadecimal digits each, run together.
ghost use Rattle.std.specs.Prelude.{◌≡◌, ◌<◌, length, drop};
ghost use Rattle.std.specs.Option.{SomeIff};
ghost use Rattle.requests.specs.Bytes.{pair_of, bytes_of};
ghost use Rattle.text.specs.Put.{Put};

use crate::piece;
use text::put;

// The byte that two digits stand for.
fn pair(a: u8, b: u8) -> Option<u8>
    ensures { SomeIff result (pair_of a b < 256) (pair_of a b) }
{
    let high = piece::digit(a)?;
    let low = piece::digit(b)?;
    Some((high * 16 + low) as u8)
}

// The bytes from a position on, put at the front of a buffer.
pub fn gather(line: &[u8], from: usize, out: &mut [u8]) -> usize
    ensures { Put out.old 0 (bytes_of (drop from line.now)) out.new result }
{
    let mut at = from;
    let mut used = 0;
    while at < line.len() {
        if line.len() - at < 2 {
            return used;
        }
        let Some(said) = pair(line[at], line[at + 1]) else {
            return used;
        };
        used = put::byte(out, used, said);
        at += 2;
    }
    used
}

// How many they are.
pub fn count(line: &[u8], from: usize) -> usize
    ensures { result ≡ length (bytes_of (drop from line.now)) }
{
    let mut one = [0u8; 1];
    gather(line, from, &mut one)
}
