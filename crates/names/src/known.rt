// Names looked through one by one: for a few names.
ghost use Rattle.std.specs.Prelude.{◌≡◌, ◌≤◌, ◌<◌, length, IfSome, unwrap_or};
ghost use Rattle.names.specs.Numbers.{number_in};
ghost use Rattle.names.specs.Noting.{name_at, names_at, Numbering};
ghost use Rattle.names.specs.Known.{grown, Noted};

use crate::name;
use words::fields;
use words::fields::wide;

// The number of the name at a place among the names known, by the places where they are first used.
fn find(text: &[u8], known: &[u32], name: usize) -> Option<usize>
    ensures within { IfSome result (λ number. number < length known.now) }
    ensures is { unwrap_or result (length known.now) ≡ number_in (names_at text.now known.now) (name_at text.now name) }
{
    for (n, place) in known.iter().enumerate() {
        if name::same(text, wide(*place), name) {
            return Some(n);
        }
    }
    None
}

// The number of the name at a place, which is known from now on.
#[tactic(auto, using(crate::proofs::Looking::note_known, crate::proofs::Looking::note_new))]
fn note(text: &[u8], places: &mut [u32], count: usize, name: u32) -> usize
    requires { count < length places.old }
    ensures { Noted text.now places.old count name places.new result }
{
    if let Some(number) = find(text, &places[..count], wide(name)) {
        return number;
    }
    places[count] = name;
    count
}

// How many names are known after a use of the name with this number.
pub(crate) fn grown(count: usize, number: usize) -> usize
    requires { count ≤ 4096 }
    ensures { result ≡ grown count number }
{
    if number == count {
        return count + 1;
    }
    count
}

// Adds to each word of a kind the number of its name. Apart from tree::number, since what is known is noted and proved otherwise there.
pub(crate) fn number(
    text: &[u8],
    starts: &[u32],
    words: &mut [u32],
    kind: u32,
    limit: usize,
    places: &mut [u32],
) -> usize
    requires { (length starts.now ≡ length words.old) × (kind < 3) × (limit ≤ 4096) × (limit < length places.old) }
    ensures { Numbering text.now starts.now words.old kind limit words.new result }
{
    let mut count = 0;
    for (i, start) in starts.iter().enumerate() {
        let w = words[i];
        if fields::kind(w) != kind {
            continue;
        }
        let n = note(text, places, count, *start);
        if limit <= n {
            return limit + 1;
        }
        words[i] = name::with_number(w, n);
        count = grown(count, n);
    }
    count
}
