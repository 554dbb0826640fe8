// The desk's records as lines of text: a day, a house and a slot.
ghost use Rattle.std.specs.Prelude.{◌≡◌};
ghost use Rattle.text.specs.Put.{Put};
ghost use Rattle.reports.specs.Records.{number_up_to, slot_named, wrong, said_slot, said_house, said_in, words_of, words_said, first_fault, lines_of};

use crate::lines;
use requests::piece;
use requests::records::Record;
use text::put;

// What a line was expected to go on with.
#[derive(Drop)]
pub enum Wanted {
    // said of a line that should have ended; no record is read so, but it may be told
    Nothing,
    Day,
    House,
    Slot,
    LineEnd,
}

// Where a text goes wrong.
#[derive(Drop)]
pub struct Fault {
    pub place: usize,
    pub wanted: Wanted,
}

// A number from 1 up to the most that it may be.
#[tactic(auto, using(crate::proofs::Lining::number_laws))]
fn number(own: &[u8], most: u32) -> Option<u32>
    ensures { result ≡ number_up_to most own.now }
{
    let read = piece::decimal(own, 0, b' ')?;
    if read.value == 0 || most < read.value {
        return None;
    }
    Some(read.value)
}

// The slot that is named.
#[tactic(auto, using(crate::proofs::Lining::slot_laws))]
fn slot(own: &[u8]) -> Option<u32>
    ensures { result ≡ slot_named own.now }
{
    if piece::same(own, b"matinee") {
        return Some(1);
    }
    if piece::same(own, b"evening") {
        return Some(2);
    }
    if piece::same(own, b"either") {
        return Some(3);
    }
    None
}

fn wrong(place: usize, wanted: Wanted) -> Result<Option<Record>, Fault>
    ensures { result ≡ wrong place wanted }
{
    Err(Fault { place, wanted })
}

// After the house: a slot, and no piece more.
#[tactic(auto, using(crate::proofs::Lining::slot_line_laws))]
fn read_slot(line: &[u8], from: usize, day: u32, house: u32) -> Result<Option<Record>, Fault>
    ensures { result ≡ said_slot line.now from day house }
{
    let third = lines::next_piece(line, from);
    let Some(slot) = slot(lines::bytes(line, third)) else {
        return wrong(third.start, Wanted::Slot);
    };
    let last = lines::next_piece(line, third.end);
    if last.start == last.end {
        return Ok(Some(Record { day, house, slot }));
    }
    wrong(last.start, Wanted::LineEnd)
}

// After the day.
#[tactic(auto, using(crate::proofs::Lining::house_line_laws))]
fn read_house(line: &[u8], from: usize, day: u32) -> Result<Option<Record>, Fault>
    ensures { result ≡ said_house line.now from day }
{
    let second = lines::next_piece(line, from);
    let Some(house) = number(lines::bytes(line, second), 999) else {
        return wrong(second.start, Wanted::House);
    };
    read_slot(line, second.end, day, house)
}

// A line's record; none where it has no piece.
#[tactic(auto, using(crate::proofs::Lining::day_line_laws))]
fn read_line(line: &[u8]) -> Result<Option<Record>, Fault>
    ensures { result ≡ said_in line.now }
{
    let first = lines::next_piece(line, 0);
    if first.start == first.end {
        return Ok(None);
    }
    let Some(day) = number(lines::bytes(line, first), 366) else {
        return wrong(first.start, Wanted::Day);
    };
    read_house(line, first.end, day)
}

fn put_record(out: &mut [u32], at: usize, said: Result<Option<Record>, Fault>) -> usize
    ensures { Put out.old at (words_of said) out.new result }
{
    match said {
        Ok(Some(record)) => {
            let a = put::word(out, at, record.day);
            let b = put::word(out, a, record.house);
            put::word(out, b, record.slot)
        }
        Ok(None) => at,
        Err(_) => at,
    }
}

// The words of the records of a text.
#[tactic(auto, using(crate::proofs::Lining::gather_laws))]
pub fn gather(text: &[u8], out: &mut [u32]) -> usize
    ensures { Put out.old 0 (words_said (lines_of text.now)) out.new result }
{
    let mut at = 0;
    let mut used = 0;
    while at < text.len() {
        let end = piece::end_of(text, at, b'\n');
        used = put_record(out, used, read_line(&text[at..end]));
        at = end + 1;
    }
    used
}

// The first place where a text of records goes wrong.
#[tactic(auto, using(crate::proofs::Lining::fault_laws))]
pub fn first_fault(text: &[u8]) -> Option<Fault>
    ensures { result ≡ first_fault 0 (lines_of text.now) }
{
    let mut at = 0;
    while at < text.len() {
        let end = piece::end_of(text, at, b'\n');
        match read_line(&text[at..end]) {
            Ok(_) => at = end + 1,
            Err(fault) => {
                return Some(Fault {
                    place: at + fault.place,
                    wanted: fault.wanted,
                });
            }
        }
    }
    None
}
