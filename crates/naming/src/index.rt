// An index of the names of a text: where each name is first used.
ghost use Rattle.std.specs.Prelude.{true, ◌≡◌, ◌≤◌, length, replicate};
ghost use Rattle.tptp.specs.Body.{Held};
ghost use Rattle.clausetext.specs.Texts.{Permitted};
ghost use Rattle.naming.specs.Noting.{BothNoted, Listed, Unnamed, ClausesNamed, Indexed};

use crate::clauses::put_names;
use crate::first::note;
use clausetext::judge::judge_text;
use names::table::number;
use tptp::shape::shapes;
use tptp::sketch::gather;

// No number has a name yet: every place is the text's end.
fn clear(index: &mut [u32], end: u32)
    ensures { index.new ≡ replicate (length index.old) end }
{
    index.fill(end);
}

// The functions and the predicates of numbered words.
fn note_both(words: &[u32], places: &[u32], index: &mut [u32])
    requires { (length places.now ≡ length words.now) × (length index.old ≡ 16896) }
    ensures { BothNoted words.now places.now index.old index.new }
{
    note(words, places, 1, &mut index[0..4096]);
    note(words, places, 2, &mut index[4096..8192]);
}

// Numbers the names of a text's items, and notes them.
fn number_items(
    text: &[u8],
    marks: &[u32],
    places: &[u32],
    words: &mut [u32],
    index: &mut [u32],
) -> bool
    requires marks_len { (length marks.now ≡ length words.old) × (length places.now ≡ length words.old) × Held text.now marks.now places.now }
    requires unnamed { Unnamed text.now index.old }
    ensures { Listed text.now index.new result }
{
    if !shapes(marks, words) {
        return false;
    }
    if 4096 < number(text, places, words, 1, 4096) {
        return false;
    }
    if 4096 < number(text, places, words, 2, 4096) {
        return false;
    }
    note_both(words, places, index);
    true
}

// The items of a text with as many words as a file's body may have.
fn index_items(text: &[u8], marks: &[u32], places: &[u32], index: &mut [u32]) -> bool
    requires { (length marks.now ≡ length places.now) × Held text.now marks.now places.now × Unnamed text.now index.old }
    ensures { Listed text.now index.new result }
{
    let count = marks.len();
    if 15996 < count {
        return false;
    }
    let mut words = [0u32; 15996];
    number_items(text, marks, places, &mut words[0..count], index)
}

// The names of the clauses, in the order of the file; false where there are more than a file has.
fn name_clauses(text: &[u8], names: &mut [u32]) -> bool
    requires { (length text.now ≤ 65536) × Permitted text.now × (length names.old ≡ 512) }
    ensures { ClausesNamed text.now names.new result }
{
    clear(names, text.len() as u32);
    let stated = put_names(text, false, names, 0);
    let all = put_names(text, true, names, stated);
    all <= 512
}

fn index_clauses(text: &[u8], index: &mut [u32]) -> bool
    requires { (length text.now ≤ 65536) × Permitted text.now × Listed text.now index.old true }
    ensures { Indexed text.now index.new result }
{
    name_clauses(text, &mut index[8192..8704])
}

// The items of a permitted text.
fn index_text(text: &[u8], index: &mut [u32]) -> bool
    requires { (length text.now ≤ 65536) × Permitted text.now × (length index.old ≡ 16896) }
    ensures { Indexed text.now index.new result }
{
    let mut marks = [0u32; 65536];
    let mut places = [0u32; 65536];
    let mut inner = [0u32; 65536];
    clear(index, text.len() as u32);
    let count = gather(text, &mut marks, &mut places, &mut inner);
    if !index_items(text, &marks[0..count], &places[0..count], index) {
        return false;
    }
    index_clauses(text, index)
}

// Makes an index of a text that has been read; false where it is no such text.
pub fn index(text: &[u8], index: &mut [u32]) -> bool
    requires { length index.old ≡ 16896 }
    ensures { Indexed text.now index.new result }
{
    match judge_text(text) {
        Ok(_) => index_text(text, index),
        Err(_) => false,
    }
}
