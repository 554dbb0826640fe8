// The desk's records in a line: `day:house:slot`, separated by single spaces.
ghost use Rattle.std.specs.Prelude.{◌≡◌, ◌<◌};
ghost use Rattle.std.specs.Option.{SomeIff};
ghost use Rattle.requests.specs.Pieces.{pieces_at, run_from};
ghost use Rattle.requests.specs.Records.{slot_of, record_of, is_record, words_of, record_words};
ghost use Rattle.text.specs.Put.{Put};

use crate::listed::{Listed, Run};
use crate::{listed, piece};
use text::{part, put};

#[derive(Clone, Copy)]
pub struct Record {
    pub day: u32,
    pub house: u32,
    pub slot: u32,
}

// The slot that a letter stands for.
fn slot(c: u8) -> Option<u32>
    ensures { SomeIff result (slot_of c < 4) (slot_of c) }
{
    match c {
        b'm' => Some(1),
        b'e' => Some(2),
        b'x' => Some(3),
        b'?' => Some(0),
        _ => None,
    }
}

impl Listed for Record {
    ghost read = { record_of };

    ghost in_words = { words_of };

    fn read(piece: &[u8]) -> Option<Record> {
        let day = piece::decimal(piece, 0, b':')?;
        let house = piece::decimal(piece, day.next, b':')?;
        let [letter] = part::rest(piece, house.next) else {
            return None;
        };
        let slot = slot(*letter)?;
        Some(Record {
            day: day.value,
            house: house.value,
            slot,
        })
    }

    fn put(self, out: &mut [u32], at: usize) -> usize {
        let a = put::word(out, at, self.day);
        let b = put::word(out, a, self.house);
        put::word(out, b, self.slot)
    }
}

// The records side by side from a position on.
pub fn records(line: &[u8], from: usize) -> Run
    ensures { result ≡ run_from is_record 0 from (pieces_at line.now from) }
{
    listed::side_by_side::<Record>(line, from)
}

// The same records, three words each, put at the front of a buffer.
pub fn gather(line: &[u8], from: usize, out: &mut [u32]) -> usize
    ensures { Put out.old 0 (record_words (pieces_at line.now from)) out.new result }
{
    listed::gather::<Record>(line, from, out)
}
