// Clauses told by their names. The places say where the name of each clause stands in the text.
ghost use Rattle.std.specs.Prelude.{◌≡◌, ◌≤◌, ◌<◌, length, get_or};
ghost use Rattle.written_proofs.specs.Steps.{names_of, name_of, begins, stands, only_from, tells};

use names::name::at;
use requests::piece::same;
use words::fields::wide;

// The name of a clause; empty where there is none. Apart from naming's lookup::name, which this crate does not use.
pub fn name<'a>(text: &'a [u8], places: &[u32], number: usize) -> &'a [u8]
    ensures { result.now ≡ name_of (names_of text.now places.now) number }
{
    if places.len() <= number {
        return &text[0..0];
    }
    at(text, wide(places[number]))
}

// A name begins with a letter, and a number does not.
pub(crate) fn begins(name: &[u8]) -> bool
    ensures { result ≡ begins name.now }
{
    name.len() > 0 && name[0] > b'9'
}

// A name is that of one of the clauses.
fn stands(text: &[u8], places: &[u32], own: &[u8]) -> bool
    ensures { result ≡ stands own.now (names_of text.now places.now) }
{
    for place in places {
        if same(at(text, wide(*place)), own) {
            return true;
        }
    }
    false
}

// The clause that alone has a name.
pub(crate) fn only(text: &[u8], places: &[u32], own: &[u8]) -> Option<u32>
    requires { length places.now ≤ 512 }
    ensures { result ≡ only_from 0 own.now (names_of text.now places.now) }
{
    for (i, place) in places.iter().enumerate() {
        if same(at(text, wide(*place)), own) {
            if stands(text, &places[i + 1..], own) {
                return None;
            }
            return Some(i as u32);
        }
    }
    None
}

// A name tells a clause if it is no number and the clause alone has it.
pub(crate) fn tells(text: &[u8], places: &[u32], own: &[u8], number: u32) -> bool
    requires { length places.now ≤ 512 }
    ensures { result ≡ tells (names_of text.now places.now) own.now number }
{
    begins(own) && only(text, places, own) == Some(number)
}
