// The names of a text by their numbers, as parts of the text. An index tells where each name stands.
ghost use Rattle.std.specs.Prelude.{◌≡◌, ◌≤◌, length};
ghost use Rattle.naming.specs.Index.{IsName, IsNamed, function_places, predicate_places, clause_places, variable_places};

use names::name::bytes;
use words::fields::wide;

// How many words an index has.
pub const ROOM: usize = 16896;

// The name that stands at a place.
fn name_at(text: &[u8], at: usize) -> &[u8]
    ensures { IsName text.entry at result }
{
    if text.len() <= at {
        return &text[0..0];
    }
    let end = at + bytes(text, at);
    &text[at..end]
}

// The name with a number, by the places of names; empty where there is none.
pub fn name<'a>(text: &'a [u8], places: &[u32], number: usize) -> &'a [u8]
    ensures { IsNamed text.entry places.now number result }
{
    if places.len() <= number {
        return &text[0..0];
    }
    name_at(text, wide(places[number]))
}

pub fn function<'a>(text: &'a [u8], index: &[u32], number: usize) -> &'a [u8]
    requires { length index.now ≡ 16896 }
    ensures { IsNamed text.entry (function_places index.now) number result }
{
    name(text, &index[0..4096], number)
}

pub fn predicate<'a>(text: &'a [u8], index: &[u32], number: usize) -> &'a [u8]
    requires { length index.now ≡ 16896 }
    ensures { IsNamed text.entry (predicate_places index.now) number result }
{
    name(text, &index[4096..8192], number)
}

// The name of a clause, by its number in the file.
pub fn clause<'a>(text: &'a [u8], index: &[u32], number: usize) -> &'a [u8]
    requires { length index.now ≡ 16896 }
    ensures { IsNamed text.entry (clause_places index.now) number result }
{
    name(text, &index[8192..8704], number)
}

// Where the names of the variables of a clause stand.
pub fn variables(index: &[u32], clause: usize) -> &[u32]
    requires { length index.now ≡ 16896 }
    ensures { result.now ≡ variable_places index.now clause }
{
    if 512 <= clause {
        return &index[0..0];
    }
    let at = 8704 + clause * 16;
    &index[at..at + 16]
}
