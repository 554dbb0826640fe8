// The tokens of a text, one after the other.
ghost use Rattle.std.specs.Prelude.{◌≡◌, ◌+◌, ◌≤◌, length, drop};
ghost use Rattle.clausetext.specs.Lexemes.{lexeme_at, word_length};

use crate::kind;
use crate::kind::{Kind, Mark};

// A token and its place: the bytes of a word that begins lower-case or upper-case, a sign and where the text goes on.
#[derive(Clone, Copy)]
pub enum Lexeme {
    Word { start: usize, stop: usize },
    Capital { start: usize, stop: usize },
    Sign { mark: Mark, stop: usize },
}

// How many letters, digits and `_` stand at the front.
pub fn word_length(text: &[u8]) -> usize
    ensures { result ≡ word_length text.now }
{
    for (at, c) in text.iter().enumerate() {
        if !kind::goes_on(kind::kind_of(*c)) {
            return at;
        }
    }
    text.len()
}

// Where the letters, digits and `_` from a position on end.
fn word_end(text: &[u8], from: usize) -> usize
    requires { from ≤ length text.now }
    ensures { result ≡ from + word_length (drop from text.now) }
{
    from + word_length(&text[from..])
}

// The first token from a position on.
pub fn next(text: &[u8], from: usize) -> Option<Lexeme>
    ensures { result ≡ lexeme_at text.now from }
{
    let mut remark = false;
    for at in from..text.len() {
        let c = text[at];
        if remark {
            remark = c != b'\n';
            continue;
        }
        match kind::kind_of(c) {
            Kind::Blank => continue,
            Kind::Percent => remark = true,
            Kind::Lower => {
                let stop = word_end(text, at + 1);
                return Some(Lexeme::Word { start: at, stop });
            }
            Kind::Upper => {
                let stop = word_end(text, at + 1);
                return Some(Lexeme::Capital { start: at, stop });
            }
            Kind::Sign(mark) => return Some(Lexeme::Sign { mark, stop: at + 1 }),
            Kind::Further | Kind::Other => return None,
        }
    }
    None
}
