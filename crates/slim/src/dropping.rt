// Which clauses before the question are kept: a flag for each. Repeats go first; then, in rounds, the clauses with a literal that has no partner.
ghost use Rattle.std.specs.Prelude.{true, false, ◌≡◌, ◌+◌, ◌≤◌, ◌<◌, length, get_or, replicate};
ghost use Rattle.words.specs.Fields.{following_of};
ghost use Rattle.table.specs.Encode.{body_words};
ghost use Rattle.table.specs.File.{table_in};
ghost use Rattle.slim.specs.Dropping.{some_of, same_words, repeats, remaining};
ghost use Rattle.slim.specs.Rounds.{unrepeated, kept_flags};
ghost use Rattle.slim.specs.Walking.{Passed, kind_index, opposite_index, Marked, Marks, lonely, Swept};

use crate::asked::Asked;
use words::fields;

// Where the clause after this one begins.
pub fn after(file: &[u32], at: usize) -> usize
    requires at_in_bounds { at < length file.now }
    requires file_len_bound { length file.now ≤ 16000 }
    ensures { result ≡ at + (following_of (get_or file.now at 0) + 1) }
{
    at + (fields::wide(fields::following(file[at])) + 1)
}

// Most clauses of a shape differ in one of their first words, so the first that differs ends it.
#[tactic(auto, using(crate::proofs::Comparing::lengths_differ, crate::proofs::Comparing::compare_begin))]
fn same_words(left: &[u32], right: &[u32]) -> bool
    ensures { result ≡ same_words left.now right.now }
{
    if left.len() != right.len() {
        return false;
    }
    for (i, word) in left.iter().enumerate() {
        if *word != right[i] {
            return false;
        }
    }
    true
}

// Whether the clause of this number, which begins here, has the words of an earlier one.
#[tactic(auto, using(crate::proofs::Repeating::differs_laws))]
fn repeats(asked: Asked, number: usize, at: usize) -> bool
    requires { Passed (table_in asked.file.now) number at × (at < asked.question) }
    ensures { result ≡ repeats (table_in asked.entry.file.now) number }
{
    let end = asked.after(at);
    let mut next = 0;
    for _ in 0..number {
        let start = next;
        next = asked.after(start);
        if same_words(&asked.file[start..next], &asked.file[at..end]) {
            return true;
        }
    }
    false
}

// The clauses that repeat no earlier one.
fn first(asked: Asked, present: &mut [bool])
    requires { length present.old ≡ length (table_in asked.file.now).clauses }
    ensures { present.new ≡ unrepeated (table_in asked.entry.file.now) }
{
    let mut at = 0;
    for (number, kept) in present.iter_mut().enumerate() {
        *kept = !repeats(asked, number, at);
        at = asked.after(at);
    }
}

// The kind of a literal's word: predicate, arity and sign.
fn kind_index(w: u32) -> usize
    ensures { result ≡ kind_index w }
{
    fields::wide(w % 65536)
}

fn opposite_index(w: u32) -> usize
    ensures { result ≡ opposite_index w }
{
    (kind_index(w) + 32768) % 65536
}

#[tactic(auto, using(crate::proofs::Marking::look_laws))]
fn mark_words(words: &[u32], marks: &mut [bool])
    requires { length marks.old ≡ 65536 }
    ensures { Marked words.now marks.old marks.new }
{
    for w in words {
        if fields::kind(*w) != 2 {
            continue;
        }
        marks[kind_index(*w)] = true;
    }
}

// Marks the kinds of literals that the clauses still present have, the question among them.
fn mark(asked: Asked, present: &[bool], marks: &mut [bool])
    requires present_len { length present.now ≡ length (table_in asked.file.now).clauses }
    requires marks_value { marks.old ≡ replicate 65536 false }
    ensures { Marks (body_words (remaining (table_in asked.entry.file.now) present.now)) marks.new }
{
    let mut next = 0;
    for still in present {
        let at = next;
        next = asked.after(at);
        if !*still {
            continue;
        }
        mark_words(&asked.file[at..next], marks);
    }
    let end = asked.after(asked.question);
    mark_words(&asked.file[asked.question..end], marks);
}

// Whether some literal of a clause has no partner.
#[tactic(auto, using(crate::proofs::Marking::seek_laws))]
fn lonely(words: &[u32], marks: &[bool]) -> bool
    requires { length marks.now ≡ 65536 }
    ensures { result ≡ some_of (lonely marks.now) words.now }
{
    for w in words {
        if fields::kind(*w) != 2 {
            continue;
        }
        if !marks[opposite_index(*w)] {
            return true;
        }
    }
    false
}

// Drops every dead clause; whether there was one.
fn sweep(asked: Asked, present: &mut [bool], marks: &[bool]) -> bool
    requires present_len { length present.old ≡ length (table_in asked.file.now).clauses }
    requires marks { Marks (body_words (remaining (table_in asked.file.now) present.old)) marks.now }
    ensures { Swept (table_in asked.entry.file.now) present.old present.new result }
{
    let mut next = 0;
    let mut dropped = false;
    for kept in present.iter_mut() {
        let at = next;
        next = asked.after(at);
        if !*kept {
            continue;
        }
        if !lonely(&asked.file[at..next], marks) {
            continue;
        }
        *kept = false;
        dropped = true;
    }
    dropped
}

fn round(asked: Asked, present: &mut [bool]) -> bool
    requires { length present.old ≡ length (table_in asked.file.now).clauses }
    ensures { Swept (table_in asked.entry.file.now) present.old present.new result }
{
    let mut marks = [false; 65536];
    mark(asked, present, &mut marks);
    sweep(asked, present, &marks)
}

// Repeats are dropped, then dead clauses, until a round drops none.
#[tactic(auto, using(crate::proofs::Settling::settle_laws))]
pub(crate) fn settle(asked: Asked, present: &mut [bool])
    requires { length present.old ≡ length (table_in asked.file.now).clauses }
    ensures { present.new ≡ kept_flags (table_in asked.entry.file.now) }
{
    first(asked, present);
    for _ in 0..present.len() {
        if !round(asked, present) {
            return;
        }
    }
}
