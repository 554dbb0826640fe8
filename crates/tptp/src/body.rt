// The words of the body: names numbered, and each clause word with its counts.
ghost use Rattle.std.specs.Prelude.{◌≡◌, ◌+◌, ◌*◌, ◌^◌, ◌≤◌, ◌<◌, length, drop};
ghost use Rattle.words.specs.Fields.{kind_of};
ghost use Rattle.tptp.specs.Body.{span, PartNumbered, Held, Numbered, Completed};

use crate::shape::shapes;
use names::table::number;
use words::fields;

// Where the clause that a place is in ends.
fn clause_end(words: &[u32], from: usize) -> usize
    requires { from ≤ length words.now }
    ensures { result ≡ from + span (drop from words.now) }
{
    for end in from..words.len() {
        if fields::kind(words[end]) == 3 {
            return end;
        }
    }
    words.len()
}

// Numbers the variables of the words from a place to another.
fn number_variables(
    text: &[u8],
    places: &[u32],
    words: &mut [u32],
    from: usize,
    end: usize,
) -> usize
    requires { (length places.now ≡ length words.old) × (from ≤ end) × (end ≤ length words.old) }
    ensures { PartNumbered text.now places.now words.old from end words.new result }
{
    number(text, &places[from..end], &mut words[from..end], 0, 16)
}

// A clause word with its counts.
fn counted(w: u32, variables: usize, following: usize) -> u32
    requires { (w < 4000000000) × (variables ≤ 16) × (following ≤ 255) }
    ensures { result ≡ following * 2 ^ 8 + variables * 2 ^ 3 + w }
{
    following as u32 * 256 + variables as u32 * 8 + w
}

// Completes the clauses one by one, unless a clause has too many variables or words.
fn complete(text: &[u8], places: &[u32], words: &mut [u32]) -> bool
    requires { (length places.now ≡ length words.old) × Numbered text.now places.now words.old }
    ensures { Completed text.now words.new result }
{
    let mut at = 0;
    while at < words.len() {
        let w = words[at];
        let end = clause_end(words, at + 1);
        let following = end - (at + 1);
        if 255 < following {
            return false;
        }
        let many = number_variables(text, places, words, at + 1, end);
        if 16 < many {
            return false;
        }
        words[at] = counted(w, many, following);
        at = end;
    }
    true
}

// Writes the words of the clauses in the order of the text, unless a limit is passed.
pub(crate) fn make(text: &[u8], marks: &[u32], places: &[u32], words: &mut [u32]) -> bool
    requires { (length marks.now ≡ length words.old) × (length places.now ≡ length words.old) × Held text.now marks.now places.now }
    ensures { Completed text.now words.new result }
{
    if !shapes(marks, words) {
        return false;
    }
    if 4096 < number(text, places, words, 1, 4096) {
        return false;
    }
    if 4096 < number(text, places, words, 2, 4096) {
        return false;
    }
    complete(text, places, words)
}
