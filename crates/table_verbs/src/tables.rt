// The verbs of a table.
use requests::request::Field;
use requests::{piece, records, request};
use results::{clause, counts, desk as said, slimmed};
use std::io;
use text::part;
use words::room;

fn lookup(rt: &impl Print, file: &[u32], number: usize) -> io::Result<()> {
    let mut out = [0u8; 4096];
    let found = table::file::lookup(file, number);
    let n = clause::clause(&mut out, 0, table::file::place(file, number), found);
    lent::write_line(rt, &out, n)
}

fn answer_lookup(rt: &impl Print, line: &[u8], values: &[usize]) -> io::Result<()> {
    let mut space: [u32; lent::FILE_ROOM] = room::filled(0);
    let n = piece::gather(line, request::place(values, 1), &mut space);
    lookup(rt, part::front(&space, n), request::place(values, 0))
}

fn slim_file(
    rt: &impl Print,
    file: &[u32],
    slimmer: &mut [u32],
    numbers: &mut [u32],
) -> io::Result<()> {
    let s = slim::calls::slim(file, slimmer, numbers);
    let mut out: [u8; lent::LINE_ROOM] = room::filled(0);
    let n = slimmed::slimmed(
        &mut out, 0, s.status, s.place, s.words, s.clauses, slimmer, numbers,
    );
    lent::write_line(rt, &out, n)
}

// Lends the words for the slimmer file and for the old numbers that are asked for.
fn lend_slim(rt: &impl Print, file: &[u32], words: usize, numbers: usize) -> io::Result<()> {
    let mut slimmer: [u32; lent::LONG_ROOM] = lent::words();
    let mut old: [u32; lent::LONG_ROOM] = lent::words();
    let a = words.min(lent::LONG_ROOM);
    let b = numbers.min(lent::LONG_ROOM);
    slim_file(rt, file, &mut slimmer[..a], &mut old[..b])
}

fn answer_slim(rt: &impl Print, line: &[u8], values: &[usize]) -> io::Result<()> {
    let mut space: [u32; lent::FILE_ROOM] = room::filled(0);
    let n = piece::gather(line, request::place(values, 2), &mut space);
    lend_slim(
        rt,
        part::front(&space, n),
        request::place(values, 0),
        request::place(values, 1),
    )
}

fn answer_desk(rt: &impl Print, line: &[u8], values: &[usize]) -> io::Result<()> {
    let mut space: [u32; lent::RECORD_ROOM] = room::filled(0);
    let n = records::gather(line, request::place(values, 5), &mut space);
    let report = desk::ask_desk(
        part::front(&space, n),
        request::word(values, 3),
        request::word(values, 4),
        request::word(values, 0),
        request::word(values, 1),
        request::word(values, 2),
    );
    let v = desk::values(report);
    let mut out = [0u8; 4096];
    let m = said::desk(&mut out, 0, v.status, v.matinee, v.evening, v.either);
    lent::write_line(rt, &out, m)
}

fn report_season(
    rt: &impl Print,
    table: &[u32],
    entries: &[u32],
    list: &[u32],
    proof: &mut [u32],
    answer: &mut [u32],
    work: &mut [u32],
) -> io::Result<()> {
    let r = season::season(table, entries, list, proof, answer, work);
    let mut out: [u8; lent::LINE_ROOM] = room::filled(0);
    let n = counts::season(&mut out, 0, r, proof, answer, work);
    lent::write_line(rt, &out, n)
}

// Lends the proof, answer and work words that are asked for.
fn lend_season(
    rt: &impl Print,
    table: &[u32],
    entries: &[u32],
    list: &[u32],
    proofs: usize,
    answers: usize,
    works: usize,
) -> io::Result<()> {
    let mut proof: [u32; lent::PROOF_ROOM] = lent::words();
    let mut answer: [u32; lent::LONG_ROOM] = lent::words();
    let mut work: [u32; lent::LONG_ROOM] = lent::words();
    let p = proofs.min(lent::PROOF_ROOM);
    let a = answers.min(lent::LONG_ROOM);
    let w = works.min(lent::LONG_ROOM);
    report_season(
        rt,
        table,
        entries,
        list,
        &mut proof[..p],
        &mut answer[..a],
        &mut work[..w],
    )
}

fn answer_season(rt: &impl Print, line: &[u8], values: &[usize]) -> io::Result<()> {
    let mut space: [u32; lent::FILE_ROOM] = room::filled(0);
    let n = piece::gather(line, request::place(values, 5), &mut space);
    let mut entries: [u32; lent::ENTRY_ROOM] = room::filled(0);
    let m = piece::gather(line, request::place(values, 3), &mut entries);
    let mut list: [u32; lent::FILE_ROOM] = room::filled(0);
    let l = piece::gather(line, request::place(values, 4), &mut list);
    lend_season(
        rt,
        part::front(&space, n),
        part::front(&entries, m),
        part::front(&list, l),
        request::place(values, 1),
        request::place(values, 2),
        request::place(values, 0),
    )
}

// The verbs of a table.
pub fn answer_tables(rt: &impl Print, line: &[u8], values: &mut [usize]) -> io::Result<bool> {
    if request::asks(
        line,
        b"lookup",
        &[Field::Number(lent::ANY), Field::Words(lent::FILE)],
        values,
    ) {
        answer_lookup(rt, line, values)?;
        return Ok(true);
    }
    if request::asks(
        line,
        b"slim",
        &[
            Field::Number(lent::FILE),
            Field::Number(lent::NUMBERS),
            Field::Words(lent::FILE),
        ],
        values,
    ) {
        answer_slim(rt, line, values)?;
        return Ok(true);
    }
    if request::asks(
        line,
        b"desk",
        &[
            Field::Number(lent::ANY),
            Field::Number(lent::ANY),
            Field::Number(lent::ANY),
            Field::Number(lent::ANY),
            Field::Number(lent::ANY),
            Field::Records(lent::RECORDS),
        ],
        values,
    ) {
        answer_desk(rt, line, values)?;
        return Ok(true);
    }
    if request::asks(
        line,
        b"season",
        &[
            Field::Number(lent::LONG),
            Field::Number(lent::PROOF),
            Field::Number(lent::LONG),
            Field::Words(lent::ENTRIES),
            Field::Words(lent::FILE),
            Field::Words(lent::FILE),
        ],
        values,
    ) {
        answer_season(rt, line, values)?;
        return Ok(true);
    }
    Ok(false)
}
