// One question put to the table: its words stand behind the table's own part, and a trailer behind them.
ghost use Rattle.std.specs.Prelude.{◌≡◌, ◌+◌, ◌≤◌, ◌<◌, eqb, length};
ghost use Rattle.words.specs.Fingerprint.{mixed, bytes_of};
ghost use Rattle.table.specs.File.{judge, trailer};
ghost use Rattle.season.specs.Asking.{alone, admits, question_run, entry_run, entry_at, Tabled, Lent, Put, Ran};

use crate::tally;
use crate::tally::Kind;
use hukolearu::calls;
use table::{build, file};
use words::{fields, fingerprint, room};

const HIGHEST_BOUND: u32 = 32;

pub(crate) const LONGEST_FILE: usize = 16000;

// A clause word, and at most 255 words that follow.
const LONGEST_CLAUSE: usize = 256;

const TRAILER: usize = 4;

// Room for the longest clause as a file.
const CLAUSE_ROOM: usize = 260;

// What a question came to, and its tries.
#[derive(Clone, Copy)]
pub(crate) struct Ended {
    pub(crate) result: Kind,
    pub(crate) tries: u32,
}

pub(crate) fn trailer(table: &[u32], k: usize) -> u32
    requires { (4 ≤ length table.now) × (k < 4) }
    ensures { result ≡ trailer table.now k }
{
    table[table.len() - 4 + k]
}

// The fingerprint goes on over more words.
#[tactic(auto, using(crate::proofs::Memory::mix_turn, crate::proofs::Memory::mix_done))]
fn mixed_on(begun: u32, words: &[u32]) -> u32
    ensures { result ≡ mixed begun (bytes_of words.now) }
{
    let mut h = begun;
    for word in words {
        h = fingerprint::mix_word(h, *word);
    }
    h
}

// A question is judged as the one clause of a file: the table's own part is judged already.
fn stands_alone(question: &[u32]) -> bool
    requires { length question.now ≤ 256 }
    ensures { result ≡ eqb (judge (alone question.now)).status 0 }
{
    let mut file: [u32; CLAUSE_ROOM] = room::filled(0);
    build::append(&mut file, 0, question);
    build::seal(&mut file, question.len(), 0, 1);
    let judged = file::judge(&file[..question.len() + TRAILER]);
    judged.status == 0
}

fn admits(table: &[u32], question: &[u32], bound: u32) -> bool
    requires { (judge table.now).status ≡ 0 }
    ensures { result ≡ admits table.now question.now bound }
{
    if HIGHEST_BOUND < bound {
        return false;
    }
    if LONGEST_CLAUSE < question.len() {
        return false;
    }
    let own = fields::wide(trailer(table, 0));
    if LONGEST_FILE < own + question.len() + TRAILER {
        return false;
    }
    stands_alone(question)
}

// The question's file, in place of the one before; how many words it has.
fn put(table: &[u32], begun: u32, question: &[u32], file: &mut [u32]) -> usize
    requires { Tabled table.now file.old begun × (trailer table.now 0 + length question.now + 4 ≤ 16000) }
    ensures { Put table.now question.now begun result file.new }
{
    let own = trailer(table, 0);
    let at = fields::wide(own);
    let body = at + question.len();
    let words = [
        own,
        trailer(table, 1),
        mixed_on(begun, question),
        body as u32,
    ];
    build::append(file, at, question);
    build::append(file, body, &words);
    body + TRAILER
}

fn ask(
    table: &[u32],
    begun: u32,
    question: &[u32],
    bound: u32,
    budget: u32,
    file: &mut [u32],
    proof: &mut [u32],
    answer: &mut [u32],
    work: &mut [u32],
) -> Ended
    requires { Tabled table.now file.old begun × Lent proof.old work.old }
    ensures ran { Ran (question_run table.now question.now (length answer.old) bound budget) result proof.old proof.new answer.old answer.new }
    ensures tabled { Tabled table.now file.new begun }
{
    if !admits(table, question, bound) {
        return Ended {
            result: Kind::Refused,
            tries: 0,
        };
    }
    let words = put(table, begun, question, file);
    let at = trailer(table, 0);
    let outcome = calls::searched(&file[..words], at, bound, budget, proof, answer, work);
    let tries = outcome.tries;
    Ended {
        result: tally::result_of(outcome),
        tries,
    }
}

// The entry whose words begin at a place; one that points past the list is refused.
pub(crate) fn ask_entry(
    table: &[u32],
    begun: u32,
    entries: &[u32],
    at: usize,
    list: &[u32],
    file: &mut [u32],
    proof: &mut [u32],
    answer: &mut [u32],
    work: &mut [u32],
) -> Ended
    requires { Tabled table.now file.old begun × Lent proof.old work.old × (at + 4 ≤ length entries.now) }
    ensures ran { Ran (entry_run table.now list.now (length answer.old) (entry_at entries.now at)) result proof.old proof.new answer.old answer.new }
    ensures tabled { Tabled table.now file.new begun }
{
    let start = fields::wide(entries[at]);
    let end = start + fields::wide(entries[at + 1]);
    if list.len() < end {
        return Ended {
            result: Kind::Refused,
            tries: 0,
        };
    }
    let question = &list[start..end];
    ask(
        table,
        begun,
        question,
        entries[at + 2],
        entries[at + 3],
        file,
        proof,
        answer,
        work,
    )
}
