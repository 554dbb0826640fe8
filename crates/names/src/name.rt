// A name in a text, told by the place where it begins.
ghost use Rattle.std.specs.Prelude.{◌≡◌, [], ◌+◌, ◌<◌, length};
ghost use Rattle.words.specs.Fields.{kind_of};
ghost use Rattle.names.specs.Numbers.{same_name};
ghost use Rattle.names.specs.Noting.{name_byte, name_at};

use clausetext::{kind, token};

// The bytes of the name at a place; none where no name stands there.
pub fn at(text: &[u8], place: usize) -> &[u8]
    ensures { result.now ≡ name_at text.now place }
{
    if text.len() <= place {
        return &text[0..0];
    }
    let rest = &text[place..];
    let length = token::word_length(rest);
    &rest[..length]
}

// Names go on in letters, digits and `_`.
fn goes_on(c: u8) -> bool
    ensures { result ≡ name_byte c }
{
    kind::goes_on(kind::kind_of(c))
}

// No name goes on at a place.
#[tactic(auto, using(crate::proofs::Same::ends_at, crate::proofs::Same::ends_after))]
fn ends(text: &[u8], at: usize) -> bool
    ensures { result ≡ same_name [] (name_at text.now at) }
{
    if at < text.len() {
        return !goes_on(text[at]);
    }
    true
}

// The names at two places are the same. The first byte that tells them apart ends it: a name may be as long as a text.
#[tactic(auto, using(crate::proofs::Same::begin_alike))]
pub(crate) fn same(text: &[u8], one: usize, other: usize) -> bool
    ensures { result ≡ same_name (name_at text.now one) (name_at text.now other) }
{
    let mut there = other;
    for here in one..text.len() {
        let c = text[here];
        if !goes_on(c) {
            return ends(text, there);
        }
        if text.len() <= there {
            return false;
        }
        let d = text[there];
        if d != c {
            return false;
        }
        there += 1;
    }
    ends(text, there)
}

// How many bytes the name at a place has.
pub fn bytes(text: &[u8], place: usize) -> usize
    ensures { result ≡ length (name_at text.now place) }
{
    at(text, place).len()
}

// A word of a variable, function or predicate with the number of its name.
pub(crate) fn with_number(w: u32, number: usize) -> u32
    requires { (kind_of w < 3) × (number < 4096) }
    ensures { result ≡ w + number }
{
    w + number as u32
}
