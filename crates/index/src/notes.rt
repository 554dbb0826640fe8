// The literals of the body, noted in order.
ghost use Rattle.std.specs.Prelude.{List, ◌≡◌, ℕ, ◌≤◌, ◌<◌, length, take, drop};
ghost use Rattle.unification.specs.Places.{work_words};
ghost use Rattle.index.specs.Places.{most_noted};
ghost use Rattle.index.specs.Scanning.{IsEntry};
ghost use Rattle.index.specs.Noting.{plain_from, moved_to, Fits, Few, packed, noted, Unpacks, unpacked, Indexed};

use crate::entries::Scan;
use crate::{entries, places};
use words::fields;

// Where a literal stands, in one word.
fn packed(scan: Scan) -> u32
    requires { Fits scan × (scan.at < 16384) }
    ensures { result ≡ packed scan }
{
    let at = scan.at;
    let offset = at - scan.start;
    at + 0x4000 * (scan.clauses - 1 + 0x200 * offset)
}

fn note_literal(work: &mut [u32], number: u32, scan: Scan)
    requires { (length work.old ≡ work_words) × (number < most_noted) × Fits scan × (scan.at < 16384) × (scan.literals ≤ number) }
    ensures { work.new ≡ noted work.old number scan }
{
    let clause = scan.clauses - 1;
    work[places::NOTES + 3 * fields::wide(number)] = packed(scan);
    work[places::CLAUSES + fields::wide(clause)] = number - scan.literals;
}

// A scan at another place of the same clause.
fn moved(scan: Scan, at: u32) -> Scan
    ensures { result ≡ moved_to scan at }
{
    Scan { at, ..scan }
}

// The scan past the words that begin neither a clause nor a literal.
pub fn past_plain(file: &[u32], scan: Scan, body: u32) -> Scan
    requires { (scan.at ≤ body) × (body ≤ length file.now) }
    ensures { result ≡ moved_to scan (plain_from scan.at (drop scan.at (take body file.now))) }
{
    for at in scan.at..body {
        if 1 < fields::kind(file[fields::wide(at)]) {
            return moved(scan, at);
        }
    }
    moved(scan, body)
}

// The literals of a body, noted once.
pub fn note(file: &[u32], work: &mut [u32], body: u32)
    requires { (length work.old ≡ work_words) × (body ≤ length file.now) × (body ≤ 16000) × Few (take body file.now) }
    ensures { Indexed file.now body work.new }
{
    let mut scan = entries::beginning();
    let mut count: u32 = 0;
    while scan.at < body {
        let here = scan;
        let word = file[fields::wide(here.at)];
        scan = entries::past(here, word);
        if fields::kind(word) != 2 {
            scan = past_plain(file, scan, body);
            continue;
        }
        note_literal(work, count, here);
        count += 1;
    }
    work[places::NOTED] = count;
}

// The literal of a number, as it is noted.
pub fn unpacked(work: &[u32], number: u32) -> Scan
    requires { Unpacks work.now number }
    ensures { result ≡ unpacked work.now number }
{
    let note = work[places::NOTES + 3 * fields::wide(number)];
    let at = note % 0x4000;
    let clause = note / 0x4000 % 0x200;
    Scan {
        at,
        clauses: clause + 1,
        start: at - note / 0x80_0000,
        literals: number - work[places::CLAUSES + fields::wide(clause)],
    }
}

// The literal of a number in the clause of a number.
pub fn entry(work: &[u32], clause: u32, literal: u32) -> Option<Scan>
    requires { ((f : List ℕ) × (body : ℕ) × Indexed f body work.now) × (clause < 512) }
    ensures { (f : List ℕ) (body : ℕ) → Indexed f body work.now → IsEntry (take body f) clause literal result }
{
    let count = work[places::NOTED];
    let first = work[places::CLAUSES + fields::wide(clause)];
    if count <= first {
        return None;
    }
    if count - first <= literal {
        return None;
    }
    let scan = unpacked(work, first + literal);
    if scan.clauses != clause + 1 {
        return None;
    }
    Some(scan)
}
