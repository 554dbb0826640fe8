// The question file that the desk asks: a clause for each record, in their order, and the question last.
ghost use Rattle.std.specs.Prelude.{◌≡◌, ◌+◌, ◌≤◌, ◌<◌, length};
ghost use Rattle.words.specs.Fields.{function_word};
ghost use Rattle.table.specs.Encode.{clause_words, file_words};
ghost use Rattle.desk.specs.Records.{slot_of, records_of};
ghost use Rattle.desk.specs.Clauses.{clause_for, question, desk_table};
ghost use Rattle.desk.specs.Asking.{Asked, Recordable, Writable, Puts, Fronts, record_of, records_words, single_words};

use crate::Slot;
use table::build;
use words::fields;

const MATINEE: u32 = 2001;

const EVENING: u32 = 2002;

// The slot that a record's word names.
#[tactic(auto, unfolding(crate::specs::Records::slot_of))]
fn slot_of(word: u32) -> Slot
    ensures { result ≡ slot_of word }
{
    match word {
        1 => Slot::Matinee,
        2 => Slot::Evening,
        _ => Slot::Either,
    }
}

// Constants: a day's number is its own, a house's follows 1,000, the slots follow 2,000.
fn constant(symbol: u32) -> u32
    requires { symbol < 4096 }
    ensures { result ≡ function_word symbol 0 }
{
    fields::function_word(symbol, 0)
}

// A clause with one literal, and where the next begins.
fn put_single(
    file: &mut [u32],
    at: usize,
    negative: bool,
    variables: u32,
    day: u32,
    house: u32,
    slot: u32,
) -> usize
    requires { (at + 9 ≤ length file.old) × (variables ≤ 1) × (day ≤ 366) × (house ≤ 999) }
    ensures { Puts file.old at (single_words negative variables day house slot) result file.new }
{
    let words = [
        fields::clause_word(false, 1, variables, 4),
        fields::literal_word(negative, 1, 3),
        constant(day),
        constant(1000 + house),
        slot,
    ];
    build::append(file, at, &words);
    at + 5
}

// Two alternatives, matinee first.
fn put_either(file: &mut [u32], at: usize, day: u32, house: u32) -> usize
    requires { (at + 9 ≤ length file.old) × (day ≤ 366) × (house ≤ 999) }
    ensures { Puts file.old at (clause_words (clause_for (record_of day house Slot.Either))) result file.new }
{
    let sign = fields::literal_word(false, 1, 3);
    let day_word = constant(day);
    let house_word = constant(1000 + house);
    let words = [
        fields::clause_word(false, 2, 0, 8),
        sign,
        day_word,
        house_word,
        constant(MATINEE),
        sign,
        day_word,
        house_word,
        constant(EVENING),
    ];
    build::append(file, at, &words);
    at + 9
}

fn put_record(file: &mut [u32], at: usize, day: u32, house: u32, slot: Slot) -> usize
    requires { (at + 9 ≤ length file.old) × Asked day house }
    ensures { Puts file.old at (clause_words (clause_for (record_of day house slot))) result file.new }
{
    match slot {
        Slot::Matinee => put_single(file, at, false, 0, day, house, constant(MATINEE)),
        Slot::Evening => put_single(file, at, false, 0, day, house, constant(EVENING)),
        Slot::Either => put_either(file, at, day, house),
    }
}

// The question: for matinee, for evening, or with a variable for any slot.
fn put_question(file: &mut [u32], at: usize, day: u32, house: u32, slot: Slot) -> usize
    requires { (at + 9 ≤ length file.old) × Asked day house }
    ensures { Puts file.old at (clause_words (question day house slot)) result file.new }
{
    match slot {
        Slot::Matinee => put_single(file, at, true, 0, day, house, constant(MATINEE)),
        Slot::Evening => put_single(file, at, true, 0, day, house, constant(EVENING)),
        Slot::Either => put_single(file, at, true, 1, day, house, fields::variable_word(0)),
    }
}

fn put_records(records: &[u32], file: &mut [u32]) -> usize
    requires { Recordable records.now file.old }
    ensures { Fronts file.old (records_words records.now) result file.new }
{
    let mut at = 0;
    let mut i = 0;
    while i < records.len() {
        at = put_record(
            file,
            at,
            records[i],
            records[i + 1],
            slot_of(records[i + 2]),
        );
        i += 3;
    }
    at
}

// The whole file, and its length.
pub(crate) fn write(records: &[u32], day: u32, house: u32, slot: Slot, file: &mut [u32]) -> usize
    requires { Writable records.now day house file.old }
    ensures { Fronts file.old (file_words (desk_table (records_of records.now) day house slot)) result file.new }
{
    let question = put_records(records, file);
    let body = put_question(file, question, day, house, slot);
    build::seal(file, body, question, records.len() / 3 + 1);
    body + 4
}
