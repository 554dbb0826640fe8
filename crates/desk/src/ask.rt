// One question to the search, with K = 2: enough for the two alternatives of an either-record.
ghost use Rattle.std.specs.Prelude.{◌≡◌};
ghost use Rattle.desk.specs.Records.{records_of};
ghost use Rattle.desk.specs.Desk.{tries_for};
ghost use Rattle.desk.specs.Asking.{Intake, Asked, settled_by, status_for, heard};

use crate::{Slot, file};
use hukolearu::{calls, status};
use words::room;

// What a question hears.
#[derive(Clone, Copy)]
pub enum Answer {
    BudgetEnded,
    Found,
    NoneFound,
}

// The words of 500 either-records, their question and the trailer.
const LONGEST_FILE: usize = 4509;

// The words of at(day,house,matinee) or at(day,house,evening).
const LONGEST_ANSWER: usize = 8;

const WORK: usize = 16384;

fn status_of(file: &[u32], budget: u32) -> u32
    ensures { result ≡ status_for file.now budget }
{
    let mut proof: [u32; calls::LONGEST_PROOF] = room::filled(0);
    let mut answer: [u32; LONGEST_ANSWER] = room::filled(0);
    let mut work: [u32; WORK] = room::filled(0);
    let outcome = calls::search(file, 2, budget, &mut proof, &mut answer, &mut work);
    outcome.status
}

pub(crate) fn ask(records: &[u32], day: u32, house: u32, slot: Slot, budget: u32) -> Answer
    requires { Intake records.now × Asked day house }
    ensures { result ≡ heard budget (tries_for day house slot (records_of records.now)) (settled_by day house slot (records_of records.now)) }
{
    let mut file: [u32; LONGEST_FILE] = room::filled(0);
    let words = file::write(records, day, house, slot, &mut file);
    let said = status_of(&file[..words], budget);
    if said == status::RAN_OUT {
        return Answer::BudgetEnded;
    }
    if said == status::NONE_FOUND {
        return Answer::NoneFound;
    }
    Answer::Found
}
