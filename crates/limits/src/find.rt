// The first clause with which a limit is passed, found by the items of the text.
ghost use Rattle.std.specs.Prelude.{◌≡◌, ◌+◌, ◌%◌, ◌≤◌, ◌<◌, length, true, cond, eqb};
ghost use Rattle.clausetext.specs.Texts.{Permitted};
ghost use Rattle.tptp.specs.Shapes.{sort_kind};
ghost use Rattle.tptp.specs.Body.{Held};
ghost use Rattle.limits.specs.Counting.{most_in, kind_words, more_than, OwnLimit, SharedLimit, LimitAt, passed_by, Finds};

use names::table::number;
use tptp::last::seek;
use tptp::sketch::gather;

#[derive(Clone, Copy, Debug, PartialEq, Eq)]
pub enum Limit {
    Literals,
    Arguments,
    Variables,
    Words,
    Clauses,
    Predicates,
    Functions,
    Total,
}

// A limit that is passed, by the so-many-th question or by the so-many-th of the other clauses.
#[derive(Clone, Copy, Debug, PartialEq, Eq)]
pub struct Passed {
    pub limit: Limit,
    pub asked: bool,
    pub number: usize,
}

fn most_parts(marks: &[u32]) -> u32
    ensures { result ≡ most_in marks.now }
{
    let mut most = 0;
    for mark in marks {
        most = most.max(*mark / 8);
    }
    most
}

// The kind of an item's word.
fn kind(sort: u32) -> u32
    ensures { (result ≡ sort_kind sort) × (result ≤ 3) }
{
    match sort {
        0 => 0,
        1 => 1,
        2..=3 => 2,
        _ => 3,
    }
}

// Words that have only a kind.
fn put_kinds(marks: &[u32], words: &mut [u32])
    requires { length marks.now ≡ length words.old }
    ensures { words.new ≡ kind_words marks.now }
{
    for (i, mark) in marks.iter().enumerate() {
        words[i] = kind(*mark % 8) * 0x40000000;
    }
}

fn over_limit(
    text: &[u8],
    marks: &[u32],
    places: &[u32],
    words: &mut [u32],
    kind: u32,
    limit: usize,
) -> bool
    requires { (length marks.now ≡ length words.old) × (length places.now ≡ length words.old) × (kind < 3) × (limit ≤ 4096) }
    ensures { result ≡ more_than text.now marks.now places.now kind limit }
{
    put_kinds(marks, words);
    limit < number(text, places, words, kind, limit)
}

// Whether items have more different names of a kind than a limit.
fn more_than(text: &[u8], marks: &[u32], places: &[u32], kind: u32, limit: usize) -> bool
    requires { (length marks.now ≡ length places.now) × (length marks.now ≤ 65536) × (kind < 3) × (limit ≤ 4096) }
    ensures { result ≡ more_than text.now marks.now places.now kind limit }
{
    let mut words = [0u32; 65536];
    let count = marks.len();
    over_limit(text, marks, places, &mut words[0..count], kind, limit)
}

// The limit that a clause passes alone, by its own mark and the items after it.
fn own_limit(text: &[u8], clause: u32, marks: &[u32], places: &[u32]) -> Option<Limit>
    requires { (length marks.now ≡ length places.now) × (length marks.now ≤ 65536) }
    ensures { OwnLimit text.now clause marks.now places.now result }
{
    if 7 < clause / 8 {
        return Some(Limit::Literals);
    }
    if 4 < most_parts(marks) {
        return Some(Limit::Arguments);
    }
    if more_than(text, marks, places, 0, 16) {
        return Some(Limit::Variables);
    }
    if 255 < marks.len() {
        return Some(Limit::Words);
    }
    None
}

// The limit that clauses pass together.
fn shared_limit(text: &[u8], marks: &[u32], places: &[u32], clauses: usize) -> Option<Limit>
    requires { (length marks.now ≡ length places.now) × (length marks.now ≤ 65536) }
    ensures { SharedLimit text.now marks.now places.now clauses result }
{
    if 512 < clauses {
        return Some(Limit::Clauses);
    }
    if more_than(text, marks, places, 2, 4096) {
        return Some(Limit::Predicates);
    }
    if more_than(text, marks, places, 1, 4096) {
        return Some(Limit::Functions);
    }
    if 15996 < marks.len() {
        return Some(Limit::Total);
    }
    None
}

// The limit passed by the clause whose items stand between two places, the last of so many.
fn limit_at(
    text: &[u8],
    marks: &[u32],
    places: &[u32],
    at: usize,
    end: usize,
    clauses: usize,
) -> Option<Limit>
    requires { (length marks.now ≡ length places.now) × (length marks.now ≤ 65536) × (at + 1 ≤ end) × (end ≤ length marks.now) }
    ensures { LimitAt text.now marks.now places.now at end clauses result }
{
    let from = at + 1;
    let own = own_limit(text, marks[at], &marks[from..end], &places[from..end]);
    if own.is_some() {
        return own;
    }
    shared_limit(text, &marks[0..end], &places[0..end], clauses)
}

// A question's mark.
fn asks(mark: u32) -> bool
    ensures { result ≡ eqb (mark % 8) 5 }
{
    mark % 8 == 5
}

fn passing(limit: Limit, question: bool, stated: usize, asked: usize) -> Passed
    ensures { result ≡ passed_by limit question stated asked }
{
    Passed {
        limit,
        asked: question,
        number: if question { asked } else { stated },
    }
}

// Clause by clause.
fn find_in(text: &[u8], marks: &[u32], places: &[u32]) -> Option<Passed>
    requires { (length marks.now ≡ length places.now) × (length marks.now ≤ 65536) × Held text.now marks.now places.now }
    ensures { Finds text.now result }
{
    let mut stated = 0;
    let mut asked = 0;
    let mut at = 0;
    while at < marks.len() {
        let question = asks(marks[at]);
        let end = seek(marks, at + 1, 4);
        if let Some(limit) = limit_at(text, marks, places, at, end, stated + asked + 1) {
            return Some(passing(limit, question, stated, asked));
        }
        at = end;
        if question {
            asked += 1;
        } else {
            stated += 1;
        }
    }
    None
}

// The first limit that a text passes.
pub(crate) fn find(text: &[u8]) -> Option<Passed>
    requires { (length text.now ≤ 65536) × Permitted text.now }
    ensures { Finds text.now result }
{
    let mut marks = [0u32; 65536];
    let mut places = [0u32; 65536];
    let mut inner = [0u32; 65536];
    let count = gather(text, &mut marks, &mut places, &mut inner);
    find_in(text, &marks[0..count], &places[0..count])
}
