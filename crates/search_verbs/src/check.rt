// The verbs that are asked as a check is.
use crate::asker::Asker;
use crate::report;
use hukolearu::{Outcome, calls};
use requests::request::Field;
use requests::{piece, request};
use std::io;
use text::part;
use words::room;

fn checked(
    asker: Asker,
    file: &[u32],
    bound: u32,
    offered: &[u32],
    answer: &mut [u32],
    work: &mut [u32],
) -> Outcome {
    match asker {
        Asker::Collections => calls::check_proof(file, bound, offered, answer, work),
        Asker::Education => education::check_proof(file, bound, offered, answer, work),
        Asker::Restart => restart::calls::check_proof(file, bound, offered, answer, work),
        Asker::RestartEducation => {
            restart::calls::education_check(file, bound, offered, answer, work)
        }
    }
}

fn check(
    rt: &impl Print,
    asker: Asker,
    file: &[u32],
    bound: u32,
    offered: &[u32],
    answer: &mut [u32],
    work: &mut [u32],
) -> io::Result<()> {
    let o = checked(asker, file, bound, offered, answer, work);
    report::report(rt, o, 0, part::front(offered, 0), answer, work)
}

fn lend_check(
    rt: &impl Print,
    asker: Asker,
    file: &[u32],
    bound: u32,
    offered: &[u32],
    answers: usize,
    works: usize,
) -> io::Result<()> {
    let mut answer: [u32; lent::LONG_ROOM] = lent::words();
    let mut work: [u32; lent::LONG_ROOM] = lent::words();
    let a = answers.min(lent::LONG_ROOM);
    let w = works.min(lent::LONG_ROOM);
    check(
        rt,
        asker,
        file,
        bound,
        offered,
        &mut answer[..a],
        &mut work[..w],
    )
}

fn answer_check(rt: &impl Print, asker: Asker, line: &[u8], values: &[usize]) -> io::Result<()> {
    let mut space: [u32; lent::FILE_ROOM] = room::filled(0);
    let n = piece::gather(line, request::place(values, 4), &mut space);
    let mut proof: [u32; lent::OFFERED_ROOM] = room::filled(0);
    let m = piece::gather(line, request::place(values, 3), &mut proof);
    lend_check(
        rt,
        asker,
        part::front(&space, n),
        request::word(values, 0),
        part::front(&proof, m),
        request::place(values, 2),
        request::place(values, 1),
    )
}

fn asks_check(line: &[u8], verb: &[u8], values: &mut [usize]) -> bool {
    request::asks(
        line,
        verb,
        &[
            Field::Number(lent::ANY),
            Field::Number(lent::LONG),
            Field::Number(lent::LONG),
            Field::Words(lent::OFFERED),
            Field::Words(lent::FILE),
        ],
        values,
    )
}

// The verbs that are asked as a check is.
pub fn answer_checks(rt: &impl Print, line: &[u8], values: &mut [usize]) -> io::Result<bool> {
    if asks_check(line, b"check", values) {
        answer_check(rt, Asker::Collections, line, values)?;
        return Ok(true);
    }
    if asks_check(line, b"edu-check", values) {
        answer_check(rt, Asker::Education, line, values)?;
        return Ok(true);
    }
    if asks_check(line, b"restart-check", values) {
        answer_check(rt, Asker::Restart, line, values)?;
        return Ok(true);
    }
    if asks_check(line, b"restart-edu-check", values) {
        answer_check(rt, Asker::RestartEducation, line, values)?;
        return Ok(true);
    }
    Ok(false)
}
