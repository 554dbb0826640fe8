// The name of a variable of a clause.
ghost use Rattle.std.specs.Prelude.{◌≡◌, ◌≤◌, ◌<◌, ◌==◌, length, position};
ghost use Rattle.clausetext.specs.Texts.{Permitted};
ghost use Rattle.tptp.specs.Body.{Held};
ghost use Rattle.variable_names.specs.Named.{IsVariable};
ghost use Rattle.variable_names.specs.Finding.{own_kind, own_kinds, Among, IsSaid};

use crate::find::place;
use clausetext::judge::judge_text;
use names::table::number;
use naming::lookup::name;
use tptp::last::seek;
use tptp::sketch::gather;

// A word that tells whether a mark is a variable's.
fn own_kind(mark: u32) -> u32
    ensures { result ≡ own_kind mark }
{
    if mark % 8 == 0 { 0 } else { 0x40000000 }
}

// Words that tell variables from all others.
fn put_kinds(marks: &[u32], words: &mut [u32])
    requires { length marks.now ≡ length words.old }
    ensures { words.new ≡ own_kinds marks.now }
{
    for (i, mark) in marks.iter().enumerate() {
        words[i] = own_kind(*mark);
    }
}

// Where a word stands first.
fn first(words: &[u32], wanted: u32) -> Option<usize>
    ensures { result ≡ position (λ w. w == wanted) words.now }
{
    words.iter().position(|w| *w == wanted)
}

fn among<'a>(
    text: &'a [u8],
    marks: &[u32],
    places: &[u32],
    words: &mut [u32],
    wanted: usize,
) -> &'a [u8]
    requires { (length marks.now ≡ length words.old) × (length places.now ≡ length words.old) × (wanted < 16) }
    ensures { Among text.entry marks.now places.now wanted result }
{
    put_kinds(marks, words);
    if 16 < number(text, places, words, 0, 16) {
        return &text[0..0];
    }
    match first(words, wanted as u32) {
        Some(i) => name(text, places, i),
        None => &text[0..0],
    }
}

// The name of the so-many-th variable of items.
fn in_items<'a>(text: &'a [u8], marks: &[u32], places: &[u32], wanted: usize) -> &'a [u8]
    requires { (length marks.now ≡ length places.now) × (length marks.now ≤ 65536) }
    ensures { Among text.entry marks.now places.now wanted result }
{
    if 16 <= wanted {
        return &text[0..0];
    }
    let mut words = [0u32; 65536];
    let count = marks.len();
    among(text, marks, places, &mut words[0..count], wanted)
}

fn in_clause<'a>(
    text: &'a [u8],
    marks: &[u32],
    places: &[u32],
    clause: usize,
    wanted: usize,
) -> &'a [u8]
    requires { (length marks.now ≡ length places.now) × (length marks.now ≤ 65536) × Held text.now marks.now places.now }
    ensures { IsSaid text.entry clause wanted result }
{
    let from = place(marks, clause);
    let end = seek(marks, from, 4);
    in_items(text, &marks[from..end], &places[from..end], wanted)
}

fn in_text(text: &[u8], clause: usize, wanted: usize) -> &[u8]
    requires { (length text.now ≤ 65536) × Permitted text.now }
    ensures { IsSaid text.entry clause wanted result }
{
    let mut marks = [0u32; 65536];
    let mut places = [0u32; 65536];
    let mut inner = [0u32; 65536];
    let count = gather(text, &mut marks, &mut places, &mut inner);
    in_clause(text, &marks[0..count], &places[0..count], clause, wanted)
}

// The name of a variable, by the number of its clause in the file and its own in the clause; empty where there is none.
pub fn variable(text: &[u8], clause: usize, number: usize) -> &[u8]
    ensures { IsVariable text.entry clause number result }
{
    match judge_text(text) {
        Err(_) => &text[0..0],
        Ok(_) => in_text(text, clause, number),
    }
}
