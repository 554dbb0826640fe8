// The judgement of a file: size, trailer, fingerprint, body, counts, question; and the lookup of a clause.
ghost use Rattle.std.specs.Prelude.{true, ◌≡◌, ◌≤◌, ◌<◌, length, get_or};
ghost use Rattle.std.proofs.Math.Option.{none};
ghost use Rattle.words.specs.Fingerprint.{fingerprint};
ghost use Rattle.table.specs.Body.{body_fault, starts, positive, any_positive};
ghost use Rattle.table.specs.File.{body_of, trailer, clause_starts, trailer_fits, question_words, question_restricted, refused, judge_read, judge_body, judge, part_from, clause_part, Stands};
ghost use Rattle.table.specs.Readers.{body_read, BeginsAt};
ghost use Rattle.std.specs.List.{list_any};

use crate::{Judgement, read};
use words::{fields, fingerprint};

fn refused(status: u32, place: usize) -> Judgement
    requires { place ≤ 16000 }
    ensures { result ≡ refused status place }
{
    Judgement {
        status,
        place: place as u32,
        clauses: 0,
        question: 0,
    }
}

// A body read: what its clauses come to, and the fingerprint of all its words.
#[derive(Clone, Copy)]
struct BodyRead {
    judged: Judgement,
    fingerprint: u32,
}

// The body is clauses back to back. A malformed clause ends the reading at once with its place.
#[tactic(auto, using(crate::proofs::Bodies::body_laws))]
fn read_body(body: &[u32]) -> BodyRead
    requires { length body.now ≤ 16000 }
    ensures judged_value { result.judged ≡ body_read body.now (body_fault 0 0 body.now) }
    ensures fingerprint_value { result.fingerprint ≡ fingerprint body.now }
{
    let mut at = 0;
    let mut clauses = 0;
    let mut last = 0;
    let mut h = fingerprint::BASIS;
    while at < body.len() {
        let read = read::clause(&body[at..], h);
        let Ok(whole) = read else {
            let judged = refused(7, at + read::place_of(read));
            return BodyRead {
                judged,
                fingerprint: fingerprint::of_words(body),
            };
        };
        last = at;
        clauses += 1;
        at += whole.at;
        h = whole.hash;
    }
    let judged = Judgement {
        status: 0,
        place: 0,
        clauses,
        question: last,
    };
    BodyRead {
        judged,
        fingerprint: h,
    }
}

fn positive(w: u32) -> bool
    ensures { result ≡ positive w }
{
    fields::kind(w) == 2 && !fields::negative(w)
}

fn any_positive(words: &[u32]) -> bool
    ensures { result ≡ list_any positive words.now }
{
    words.iter().any(|w| positive(*w))
}

fn trailer(file: &[u32], k: usize) -> u32
    requires { (4 ≤ length file.now) × (k < 4) }
    ensures { result ≡ trailer file.now k }
{
    file[file.len() - 4 + k]
}

#[tactic(auto, unfolding(crate::specs::File::trailer_fits))]
fn trailer_fits(file: &[u32]) -> bool
    requires { 4 ≤ length file.now }
    ensures { result ≡ trailer_fits file.now }
{
    let clauses = trailer(file, 1);
    fields::wide(trailer(file, 3)) == file.len() - 4
        && 1 <= clauses
        && clauses <= 512
        && trailer(file, 0) < trailer(file, 3)
}

// A positive literal in the question, whose words are the last of the body.
#[tactic(auto, using(crate::proofs::Files::question_laws))]
fn question_positive(file: &[u32]) -> bool
    requires in_bounds { 4 ≤ length file.now }
    requires file_value { trailer_fits file.now ≡ true }
    ensures { result ≡ any_positive (question_words file.now) }
{
    let end = file.len() - 4;
    let body = &file[..end];
    let question = fields::wide(trailer(file, 0));
    any_positive(&body[question..])
}

// The question's own word carries the mark.
#[tactic(auto, using(crate::proofs::Files::question_laws))]
fn question_restricted(file: &[u32]) -> bool
    requires in_bounds { 4 ≤ length file.now }
    requires file_value { trailer_fits file.now ≡ true }
    ensures { result ≡ question_restricted file.now }
{
    let question = fields::wide(trailer(file, 0));
    fields::restricted(file[question])
}

// The clauses read against the trailer, then the question.
#[tactic(auto, using(crate::proofs::Files::read_laws))]
fn judge_read(file: &[u32], read: Judgement) -> Judgement
    requires in_bounds { 4 ≤ length file.now }
    requires file_value { trailer_fits file.now ≡ true }
    requires read_value { read ≡ body_read (body_of file.now) (body_fault 0 0 (body_of file.now)) }
    ensures { result ≡ judge_read file.now (body_fault 0 0 (body_of file.now)) }
{
    if read.status != 0 {
        return read;
    }
    if read.clauses != fields::wide(trailer(file, 1)) {
        return refused(8, 0);
    }
    if read.question != fields::wide(trailer(file, 0)) {
        return refused(8, 0);
    }
    if question_positive(file) {
        return refused(9, 0);
    }
    if question_restricted(file) {
        return refused(21, 0);
    }
    read
}

// The fingerprint, then the body: both are read at once, and the fingerprint is judged first.
#[tactic(auto, using(crate::proofs::Files::judge_laws))]
fn judge_body(file: &[u32]) -> Judgement
    requires in_bounds { (4 ≤ length file.now) × (length file.now ≤ 16000) }
    requires file_value { trailer_fits file.now ≡ true }
    ensures { result ≡ judge_body file.now }
{
    let end = file.len() - 4;
    let body = &file[..end];
    let read = read_body(body);
    if read.fingerprint != trailer(file, 2) {
        return refused(6, 0);
    }
    judge_read(file, read.judged)
}

#[tactic(auto, using(crate::proofs::Files::judge_laws))]
pub fn judge(file: &[u32]) -> Judgement
    ensures { result ≡ judge file.now }
{
    if file.len() < 6 || 16000 < file.len() {
        return refused(4, 0);
    }
    if !trailer_fits(file) {
        return refused(5, 0);
    }
    judge_body(file)
}

// Where a clause begins, found by passing over the clauses before it.
#[tactic(auto, using(crate::proofs::Bodies::seek_laws))]
fn start_of(body: &[u32], number: usize) -> usize
    requires { (body_fault 0 0 body.now ≡ none) × (number < length (starts 0 0 body.now)) }
    ensures { BeginsAt body.now number result }
{
    let mut at = 0;
    for _ in 0..number {
        at += fields::wide(fields::following(body[at])) + 1;
    }
    at
}

// Where a clause of an accepted file begins.
#[tactic(auto, using(crate::proofs::Lookups::part_laws))]
fn clause_start(file: &[u32], number: usize) -> usize
    requires { ((judge file.now).status ≡ 0) × (number < (judge file.now).clauses) }
    ensures { BeginsAt (body_of file.now) number result }
{
    let end = file.len() - 4;
    start_of(&file[..end], number)
}

// The words of a clause of an accepted file.
#[tactic(auto, using(crate::proofs::Lookups::part_laws))]
fn clause_part(file: &[u32], number: usize) -> &[u32]
    requires { ((judge file.now).status ≡ 0) × (number < (judge file.now).clauses) }
    ensures { Stands file.entry (part_from file.now (get_or (clause_starts file.now) number 0)) result }
{
    let start = clause_start(file, number);
    let stop = start + (fields::wide(fields::following(file[start])) + 1);
    &file[start..stop]
}

// A clause's words as a part of the file: the clause word and the words that follow; of length 0 where the file or the number is refused.
#[tactic(auto, using(crate::proofs::Lookups::lookup_laws))]
pub fn lookup(file: &[u32], number: usize) -> &[u32]
    ensures { Stands file.entry (clause_part file.now number) result }
{
    let judged = judge(file);
    if judged.status != 0 || judged.clauses <= number {
        return &file[0..0];
    }
    clause_part(file, number)
}

// Where the part that lookup hands back begins in the file; 0 where the file or the number is refused.
#[tactic(auto, using(crate::proofs::Lookups::place_laws))]
pub fn place(file: &[u32], number: usize) -> u32
    ensures { result ≡ (clause_part file.now number).start }
{
    let judged = judge(file);
    if judged.status != 0 || judged.clauses <= number {
        return 0;
    }
    clause_start(file, number) as u32
}
