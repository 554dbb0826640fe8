// The season report (document 02, order 13): many questions put to one table, each in the place of the table's own.
#![tactic(auto)]

ghost use Rattle.std.specs.Prelude.{true, ◌≡◌, length};
ghost use Rattle.table.specs.File.{judge};
ghost use Rattle.season.specs.Season.{refused_report, entries_fit, season_with, report_of, proof_after, answer_after, work_left};
ghost use Rattle.season.specs.Asking.{Tabled, Lent, Reported};

use hukolearu::door::Inputs;
use hukolearu::{calls, door};
use table::build;
use words::{fields, fingerprint, room};

mod ask;
mod tally;

// Status 23: more than 4,096 entries, or words left over.
const ENTRIES_WRONG: u32 = 23;

const ENTRY: usize = 4;

const MOST_ENTRIES: usize = 4096;

// The work words of a search.
const ROOM: usize = 16384;

// What comes back: how many questions came to each of the six results, and the sum of their tries; on a refusal all numbers but status and place are 0.
#[repr(C)]
#[derive(Clone, Copy)]
pub struct Report {
    pub status: u32,
    pub place: u32,
    pub definite: u32,
    pub indefinite: u32,
    pub none: u32,
    pub ranout: u32,
    pub toolong: u32,
    pub refused: u32,
    pub tries: u64,
}

fn refused(status: u32, place: u32) -> Report
    ensures { result ≡ refused_report status place }
{
    Report {
        status,
        place,
        definite: 0,
        indefinite: 0,
        none: 0,
        ranout: 0,
        toolong: 0,
        refused: 0,
        tries: 0,
    }
}

// At most 4,096 entries, and no words left over.
#[tactic(auto, unfolding(crate::specs::Season::entries_fit))]
fn entries_fit(words: usize) -> bool
    ensures { result ≡ entries_fit words }
{
    words % ENTRY == 0 && words / ENTRY <= MOST_ENTRIES
}

// Entry after entry.
fn ask_all(
    table: &[u32],
    begun: u32,
    entries: &[u32],
    list: &[u32],
    file: &mut [u32],
    proof: &mut [u32],
    answer: &mut [u32],
    work: &mut [u32],
) -> Report
    requires { Tabled table.now file.old begun × Lent proof.old work.old × (entries_fit (length entries.now) ≡ true) }
    ensures { Reported table.now entries.now list.now result proof.old proof.new answer.old answer.new }
{
    let mut report = refused(0, 0);
    let mut at = 0;
    while at < entries.len() {
        let ended = ask::ask_entry(table, begun, entries, at, list, file, proof, answer, work);
        report = tally::counting(report, ended);
        at += ENTRY;
    }
    report
}

// The table's own part is copied and fingerprinted once.
fn put_all(
    table: &[u32],
    entries: &[u32],
    list: &[u32],
    proof: &mut [u32],
    answer: &mut [u32],
    work: &mut [u32],
) -> Report
    requires { ((judge table.now).status ≡ 0) × Lent proof.old work.old × (entries_fit (length entries.now) ≡ true) }
    ensures { Reported table.now entries.now list.now result proof.old proof.new answer.old answer.new }
{
    let mut file: [u32; ask::LONGEST_FILE] = room::filled(0);
    let own = &table[..fields::wide(ask::trailer(table, 0))];
    build::append(&mut file, 0, own);
    let begun = fingerprint::of_words(own);
    ask_all(table, begun, entries, list, &mut file, proof, answer, work)
}

pub fn season(
    table: &[u32],
    entries: &[u32],
    list: &[u32],
    proof: &mut [u32],
    answer: &mut [u32],
    work: &mut [u32],
) -> Report
    ensures value { result ≡ report_of (season_with table.now entries.now list.now proof.old answer.old work.old) }
    ensures proof_after { proof.new ≡ proof_after (season_with table.now entries.now list.now proof.old answer.old work.old) proof.old }
    ensures answer_after { answer.new ≡ answer_after (season_with table.now entries.now list.now proof.old answer.old work.old) answer.old }
    ensures work_after { work.new ≡ work_left (season_with table.now entries.now list.now proof.old answer.old work.old) work.old }
{
    let inputs = Inputs {
        bound: 0,
        work: work.len(),
        proof: proof.len(),
        least: calls::LONGEST_PROOF,
    };
    match door::enter(table, inputs) {
        Err(refusal) => {
            door::leave(work);
            refused(refusal.status, refusal.place)
        }
        Ok(_) => {
            if !entries_fit(entries.len()) {
                door::leave(work);
                return refused(ENTRIES_WRONG, 0);
            }
            let report = put_all(table, entries, list, proof, answer, &mut work[..ROOM]);
            door::leave(work);
            report
        }
    }
}
