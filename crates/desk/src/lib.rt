// The matinee desk (document 02, order 14): what the records of a day and house say.
#![tactic(auto)]

ghost use Rattle.std.specs.Prelude.{◌≡◌, true, false};
ghost use Rattle.desk.specs.Records.{records_of, acceptable};
ghost use Rattle.desk.specs.Desk.{recorded, desk_says, slots, no_slot, values_of};
ghost use Rattle.desk.specs.Asking.{NeitherRecorded, any_reported, evening_reported};

use ask::Answer;

mod ask;
mod file;
mod intake;

// A record states a matinee or an evening, or leaves open which of the two it was; a question is for one of them, or for any slot.
#[derive(Clone, Copy)]
pub enum Slot {
    Matinee,
    Evening,
    Either,
}

// What the desk reports.
#[derive(Clone, Copy)]
pub enum Report {
    // A number out of range, a slot that is none of the three, over 500 records, or words left over.
    Refused,
    // A question that was asked needs more tries than its budget.
    RanOut,
    Matinee,
    Evening,
    MatineeAndEvening,
    // Neither is stated, and a record leaves open which of the two it was.
    Either,
    NotRecorded,
}

// Neither is stated: the question for any slot.
fn any_slot(records: &[u32], day: u32, house: u32, third: u32) -> Report
    requires { (acceptable records.now day house ≡ true) × NeitherRecorded (records_of records.now) day house }
    ensures { result ≡ any_reported (records_of records.now) day house third }
{
    match ask::ask(records, day, house, Slot::Either, third) {
        Answer::BudgetEnded => Report::RanOut,
        Answer::Found => Report::Either,
        Answer::NoneFound => Report::NotRecorded,
    }
}

// A matinee is stated: the question for evening.
fn beside_matinee(records: &[u32], day: u32, house: u32, second: u32, third: u32) -> Report
    requires { acceptable records.now day house ≡ true }
    ensures { result ≡ evening_reported true (records_of records.now) day house second third }
{
    match ask::ask(records, day, house, Slot::Evening, second) {
        Answer::BudgetEnded => Report::RanOut,
        Answer::Found => Report::MatineeAndEvening,
        Answer::NoneFound => Report::Matinee,
    }
}

// No matinee is stated: the question for evening, and if need be for any slot.
fn without_matinee(records: &[u32], day: u32, house: u32, second: u32, third: u32) -> Report
    requires { (acceptable records.now day house ≡ true) × (recorded day house Slot.Matinee (records_of records.now) ≡ false) }
    ensures { result ≡ evening_reported false (records_of records.now) day house second third }
{
    match ask::ask(records, day, house, Slot::Evening, second) {
        Answer::BudgetEnded => Report::RanOut,
        Answer::Found => Report::Evening,
        Answer::NoneFound => any_slot(records, day, house, third),
    }
}

// Three words a record: day, house, slot (1 matinee, 2 evening, 3 either). The budgets are those of the questions for matinee, for evening and for any slot.
pub fn ask_desk(
    records: &[u32],
    day: u32,
    house: u32,
    first: u32,
    second: u32,
    third: u32,
) -> Report
    ensures { result ≡ desk_says records.now day house first second third }
{
    if !intake::acceptable(records, day, house) {
        return Report::Refused;
    }
    match ask::ask(records, day, house, Slot::Matinee, first) {
        Answer::BudgetEnded => Report::RanOut,
        Answer::Found => beside_matinee(records, day, house, second, third),
        Answer::NoneFound => without_matinee(records, day, house, second, third),
    }
}

// The report as numbers: status 0, 11 or 24, and 1 for each slot that is reported.
#[repr(C)]
#[derive(Clone, Copy)]
pub struct DeskValues {
    pub status: u32,
    pub matinee: u32,
    pub evening: u32,
    pub either: u32,
}

pub fn values(report: Report) -> DeskValues
    ensures { result ≡ values_of report }
{
    match report {
        Report::Refused => no_slot(24),
        Report::RanOut => no_slot(11),
        Report::Matinee => slots(1, 0, 0),
        Report::Evening => slots(0, 1, 0),
        Report::MatineeAndEvening => slots(1, 1, 0),
        Report::Either => slots(0, 0, 1),
        Report::NotRecorded => slots(0, 0, 0),
    }
}

fn slots(matinee: u32, evening: u32, either: u32) -> DeskValues
    ensures { result ≡ slots matinee evening either }
{
    DeskValues {
        status: 0,
        matinee,
        evening,
        either,
    }
}

fn no_slot(status: u32) -> DeskValues
    ensures { result ≡ no_slot status }
{
    DeskValues {
        status,
        matinee: 0,
        evening: 0,
        either: 0,
    }
}
