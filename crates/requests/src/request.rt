// A request of the line protocol: a verb, and the fields of its row.
ghost use Rattle.std.specs.Prelude.{◌≡◌, min, get_or};
ghost use Rattle.text.specs.Put.{put};
ghost use Rattle.requests.specs.Rows.{number_at, counted, list_at, bytes_at, barred_at, field_at, ends_with, values_from, asks, values_asked};

use crate::listed::Run;
use crate::{bytes, piece, records};
use text::put;
use words::fields::wide;

// A field of a row, with the most that it may be: a number's limit, a list's length.
#[derive(Clone, Copy)]
pub enum Field {
    Number(u32),
    Words(u32),
    Records(u32),
    Bytes(u32),
    // A kind that is none of these: no line says it.
    Unknown,
}

// What a field says, and where the piece after it begins. A list is told by the position where it begins.
#[derive(Clone, Copy)]
pub struct Said {
    pub value: usize,
    pub next: usize,
}

fn number(line: &[u8], at: usize, limit: u32) -> Option<Said>
    ensures { result ≡ number_at limit line.now at }
{
    let said = piece::decimal(line, at, b' ')?;
    if limit < said.value {
        return None;
    }
    Some(Said {
        value: said.value as usize,
        next: said.next,
    })
}

// So many, and not none.
fn counted(at: usize, room: usize, run: Run) -> Option<Said>
    ensures { result ≡ counted room at run }
{
    if run.count == 0 || room < run.count {
        return None;
    }
    Some(Said {
        value: at,
        next: run.next,
    })
}

// A list of pieces, whose run is at hand: `-` stands for none.
fn list(line: &[u8], at: usize, room: usize, run: Run) -> Option<Said>
    ensures { result ≡ list_at room line.now at run }
{
    if piece::is(line, at, b"-") {
        return Some(Said {
            value: at,
            next: at + 2,
        });
    }
    counted(at, room, run)
}

// The piece is nothing but bytes.
fn bytes(line: &[u8], at: usize, room: usize) -> Option<Said>
    ensures { result ≡ bytes_at room line.now at }
{
    if piece::is(line, at, b"-") {
        return Some(Said {
            value: at,
            next: at + 2,
        });
    }
    let count = bytes::count(line, at);
    let long = piece::piece(line, at).len();
    if count == 0 || long != count * 2 || room < count {
        return None;
    }
    Some(Said {
        value: at,
        next: at + long + 1,
    })
}

// A list comes after a bar: where it begins.
fn barred(line: &[u8], at: usize) -> Option<usize>
    ensures { result ≡ barred_at line.now at }
{
    if piece::is(line, at, b"/") {
        return Some(at + 2);
    }
    None
}

fn read_field(line: &[u8], at: usize, kind: Field) -> Option<Said>
    ensures { result ≡ field_at line.now at kind }
{
    match kind {
        Field::Number(limit) => number(line, at, limit),
        Field::Words(room) => {
            let at = barred(line, at)?;
            list(line, at, wide(room), piece::words(line, at))
        }
        Field::Records(room) => {
            let at = barred(line, at)?;
            list(line, at, wide(room), records::records(line, at))
        }
        Field::Bytes(room) => bytes(line, barred(line, at)?, wide(room)),
        Field::Unknown => None,
    }
}

// The fields of a row from a position on, with which the line ends. Their values are put at the front of a buffer.
fn read(line: &[u8], from: usize, row: &[Field], values: &mut [usize]) -> bool
    ensures value { result ≡ ends_with line.now from row.now }
    ensures values_after { values.new ≡ put values.old 0 (values_from line.now from row.now) }
{
    let mut at = from;
    let mut used = 0;
    for kind in row {
        let Some(said) = read_field(line, at, *kind) else {
            return false;
        };
        used = put::place(values, used, said.value);
        at = said.next;
    }
    line.len() < at
}

// The line is a request with this verb and this row.
pub fn asks(line: &[u8], verb: &[u8], row: &[Field], values: &mut [usize]) -> bool
    ensures value { result ≡ asks line.now verb.now row.now }
    ensures values_after { values.new ≡ put values.old 0 (values_asked line.now verb.now row.now) }
{
    if piece::is(line, 0, verb) {
        return read(line, verb.len() + 1, row, values);
    }
    false
}

// A value of a request, by its field's number.
pub fn place(values: &[usize], i: usize) -> usize
    ensures { result ≡ get_or values.now i 0 }
{
    values.get(i).copied().unwrap_or(0)
}

// The same as a word.
pub fn word(values: &[usize], i: usize) -> u32
    ensures { result ≡ min (get_or values.now i 0) 4294967295 }
{
    u32::try_from(place(values, i)).unwrap_or(u32::MAX)
}
