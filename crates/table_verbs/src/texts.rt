// The verbs of text.
use requests::request::Field;
use requests::{bytes, piece, request};
use results::textual;
use std::io;
use text::part;
use words::room;

fn read_text(rt: &impl Print, text: &[u8], file: &mut [u32]) -> io::Result<()> {
    let r = tptp::call::read(text, file);
    let mut out: [u8; lent::LINE_ROOM] = room::filled(0);
    let n = textual::read_text(&mut out, 0, r.status, r.place, r.words, file);
    lent::write_line(rt, &out, n)
}

// Lends the words for the file that are asked for.
fn lend_file(rt: &impl Print, text: &[u8], words: usize) -> io::Result<()> {
    let mut file: [u32; lent::LONG_ROOM] = lent::words();
    let w = words.min(lent::LONG_ROOM);
    read_text(rt, text, &mut file[..w])
}

fn answer_text(rt: &impl Print, line: &[u8], values: &[usize]) -> io::Result<()> {
    let mut space: [u8; lent::TEXT_ROOM] = room::filled(0);
    let n = bytes::gather(line, request::place(values, 1), &mut space);
    lend_file(rt, part::front(&space, n), request::place(values, 0))
}

fn write_text(rt: &impl Print, file: &[u32], text: &mut [u8]) -> io::Result<()> {
    let w = clauselines::call::write(file, text);
    let mut out: [u8; lent::LINE_ROOM] = room::filled(0);
    let n = textual::written_text(&mut out, 0, w.status, w.place, w.bytes, text);
    lent::write_line(rt, &out, n)
}

// Lends the bytes for the text that are asked for.
fn lend_text(rt: &impl Print, file: &[u32], bytes: usize) -> io::Result<()> {
    let mut text: [u8; lent::TEXT_ROOM] = lent::bytes();
    let b = bytes.min(lent::TEXT_ROOM);
    write_text(rt, file, &mut text[..b])
}

fn answer_written(rt: &impl Print, line: &[u8], values: &[usize]) -> io::Result<()> {
    let mut space: [u32; lent::FILE_ROOM] = room::filled(0);
    let n = piece::gather(line, request::place(values, 1), &mut space);
    lend_text(rt, part::front(&space, n), request::place(values, 0))
}

fn list_clauses(
    rt: &impl Print,
    file: &[u32],
    bound: u32,
    offered: &[u32],
    listing: &mut [u8],
    work: &mut [u32],
) -> io::Result<()> {
    let w = listing::call::listing(file, bound, offered, listing, work);
    let mut out: [u8; lent::LINE_ROOM] = room::filled(0);
    let n = textual::listed_text(&mut out, 0, w.status, w.place, w.bytes, listing, work);
    lent::write_line(rt, &out, n)
}

// Lends the bytes for the listing and the work words that are asked for.
fn lend_listing(
    rt: &impl Print,
    file: &[u32],
    bound: u32,
    offered: &[u32],
    bytes: usize,
    works: usize,
) -> io::Result<()> {
    let mut listing: [u8; lent::TEXT_ROOM] = lent::bytes();
    let mut work: [u32; lent::LONG_ROOM] = lent::words();
    let b = bytes.min(lent::TEXT_ROOM);
    let w = works.min(lent::LONG_ROOM);
    list_clauses(rt, file, bound, offered, &mut listing[..b], &mut work[..w])
}

fn answer_listing(rt: &impl Print, line: &[u8], values: &[usize]) -> io::Result<()> {
    let mut space: [u32; lent::FILE_ROOM] = room::filled(0);
    let n = piece::gather(line, request::place(values, 4), &mut space);
    let mut proof: [u32; lent::OFFERED_ROOM] = room::filled(0);
    let m = piece::gather(line, request::place(values, 3), &mut proof);
    lend_listing(
        rt,
        part::front(&space, n),
        request::word(values, 0),
        part::front(&proof, m),
        request::place(values, 2),
        request::place(values, 1),
    )
}

// The verbs of text.
pub fn answer_texts(rt: &impl Print, line: &[u8], values: &mut [usize]) -> io::Result<bool> {
    if request::asks(
        line,
        b"tptp-in",
        &[Field::Number(lent::FILE), Field::Bytes(lent::TEXT)],
        values,
    ) {
        answer_text(rt, line, values)?;
        return Ok(true);
    }
    if request::asks(
        line,
        b"tptp-out",
        &[Field::Number(lent::TEXT), Field::Words(lent::FILE)],
        values,
    ) {
        answer_written(rt, line, values)?;
        return Ok(true);
    }
    if request::asks(
        line,
        b"listing",
        &[
            Field::Number(lent::ANY),
            Field::Number(lent::LONG),
            Field::Number(lent::TEXT),
            Field::Words(lent::OFFERED),
            Field::Words(lent::FILE),
        ],
        values,
    ) {
        answer_listing(rt, line, values)?;
        return Ok(true);
    }
    Ok(false)
}
