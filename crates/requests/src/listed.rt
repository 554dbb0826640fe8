// Pieces side by side that each say a thing of one kind: how many they are, and their words.
ghost use Rattle.std.specs.Prelude.{◌≡◌, List, ℕ, Option};
ghost use Rattle.requests.specs.Pieces.{pieces_at, run_from};
ghost use Rattle.requests.specs.Listed.{says, listed_words};
ghost use Rattle.text.specs.Put.{Put};

use crate::piece;

// What a piece may say, in words.
pub trait Listed: Sized {
    ghost read: { List ℕ → Option Self };

    ghost in_words: { Self → List ℕ };

    fn read(piece: &[u8]) -> Option<Self>
        ensures { result ≡ read piece.now };

    fn put(self, out: &mut [u32], at: usize) -> usize
        ensures { Put out.old at (in_words self) out.new result };
}

// How many pieces of a kind stand side by side, and where the first that is of another begins.
#[derive(Clone, Copy)]
pub struct Run {
    pub count: usize,
    pub next: usize,
}

pub fn side_by_side<T: Listed + Drop>(line: &[u8], from: usize) -> Run
    ensures { result ≡ run_from (says T.read) 0 from (pieces_at line.now from) }
{
    let mut at = from;
    let mut count = 0;
    while at <= line.len() {
        let own = piece::piece(line, at);
        if T::read(own).is_none() {
            return Run { count, next: at };
        }
        count += 1;
        at += own.len() + 1;
    }
    Run { count, next: at }
}

// The words of all, put at the front of a buffer.
pub fn gather<T: Listed>(line: &[u8], from: usize, out: &mut [u32]) -> usize
    ensures { Put out.old 0 (listed_words T.read T.in_words (pieces_at line.now from)) out.new result }
{
    let mut at = from;
    let mut used = 0;
    while at <= line.len() {
        let own = piece::piece(line, at);
        let Some(said) = T::read(own) else {
            return used;
        };
        used = said.put(out, used);
        at += own.len() + 1;
    }
    used
}
