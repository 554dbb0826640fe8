// The verbs that are asked as a search is.
use crate::asker::Asker;
use crate::report;
use hukolearu::{Outcome, calls};
use requests::request::Field;
use requests::{piece, request};
use results::least;
use std::io;
use text::part;
use words::fields::wide;
use words::room;

// The calls that are asked as a search is.
#[derive(Clone, Copy)]
enum Run {
    Search(Asker),
    Smallest,
}

fn searched(
    asker: Asker,
    file: &[u32],
    bound: u32,
    budget: u32,
    proof: &mut [u32],
    answer: &mut [u32],
    work: &mut [u32],
) -> Outcome {
    match asker {
        Asker::Collections => calls::search(file, bound, budget, proof, answer, work),
        Asker::Education => education::search(file, bound, budget, proof, answer, work),
        Asker::Restart => restart::calls::search(file, bound, budget, proof, answer, work),
        Asker::RestartEducation => {
            restart::calls::education_search(file, bound, budget, proof, answer, work)
        }
    }
}

fn search(
    rt: &impl Print,
    asker: Asker,
    file: &[u32],
    bound: u32,
    budget: u32,
    proof: &mut [u32],
    answer: &mut [u32],
    work: &mut [u32],
) -> io::Result<()> {
    let o = searched(asker, file, bound, budget, proof, answer, work);
    report::report(rt, o, wide(o.proof), proof, answer, work)
}

fn find_smallest(
    rt: &impl Print,
    file: &[u32],
    limit: u32,
    budget: u32,
    proof: &mut [u32],
    answer: &mut [u32],
    work: &mut [u32],
) -> io::Result<()> {
    let l = smallest::smallest(file, limit, budget, proof, answer, work);
    let o = l.outcome;
    let mut out: [u8; lent::LINE_ROOM] = room::filled(0);
    let n = least::least(&mut out, 0, l.bound, o, wide(o.proof), proof, answer, work);
    lent::write_line(rt, &out, n)
}

fn find(
    rt: &impl Print,
    run: Run,
    file: &[u32],
    bound: u32,
    budget: u32,
    proof: &mut [u32],
    answer: &mut [u32],
    work: &mut [u32],
) -> io::Result<()> {
    match run {
        Run::Search(asker) => search(rt, asker, file, bound, budget, proof, answer, work),
        Run::Smallest => find_smallest(rt, file, bound, budget, proof, answer, work),
    }
}

// Lends the work words and answer words that are asked for.
fn lend_search(
    rt: &impl Print,
    run: Run,
    file: &[u32],
    bound: u32,
    budget: u32,
    proof: &mut [u32],
    answers: usize,
    works: usize,
) -> io::Result<()> {
    let mut answer: [u32; lent::LONG_ROOM] = lent::words();
    let mut work: [u32; lent::LONG_ROOM] = lent::words();
    let a = answers.min(lent::LONG_ROOM);
    let w = works.min(lent::LONG_ROOM);
    find(
        rt,
        run,
        file,
        bound,
        budget,
        proof,
        &mut answer[..a],
        &mut work[..w],
    )
}

fn lend_proof(
    rt: &impl Print,
    run: Run,
    file: &[u32],
    bound: u32,
    budget: u32,
    proofs: usize,
    answers: usize,
    works: usize,
) -> io::Result<()> {
    let mut proof: [u32; lent::PROOF_ROOM] = lent::words();
    let p = proofs.min(lent::PROOF_ROOM);
    lend_search(
        rt,
        run,
        file,
        bound,
        budget,
        &mut proof[..p],
        answers,
        works,
    )
}

fn answer_search(rt: &impl Print, run: Run, line: &[u8], values: &[usize]) -> io::Result<()> {
    let mut space: [u32; lent::FILE_ROOM] = room::filled(0);
    let n = piece::gather(line, request::place(values, 5), &mut space);
    lend_proof(
        rt,
        run,
        part::front(&space, n),
        request::word(values, 0),
        request::word(values, 1),
        request::place(values, 3),
        request::place(values, 4),
        request::place(values, 2),
    )
}

fn asks_search(line: &[u8], verb: &[u8], values: &mut [usize]) -> bool {
    request::asks(
        line,
        verb,
        &[
            Field::Number(lent::ANY),
            Field::Number(lent::ANY),
            Field::Number(lent::LONG),
            Field::Number(lent::PROOF),
            Field::Number(lent::LONG),
            Field::Words(lent::FILE),
        ],
        values,
    )
}

// The verbs that are asked as a search is; whether the line was one of them.
pub fn answer_searches(rt: &impl Print, line: &[u8], values: &mut [usize]) -> io::Result<bool> {
    if asks_search(line, b"search", values) {
        answer_search(rt, Run::Search(Asker::Collections), line, values)?;
        return Ok(true);
    }
    if asks_search(line, b"smallest", values) {
        answer_search(rt, Run::Smallest, line, values)?;
        return Ok(true);
    }
    if asks_search(line, b"edu-search", values) {
        answer_search(rt, Run::Search(Asker::Education), line, values)?;
        return Ok(true);
    }
    if asks_search(line, b"restart-search", values) {
        answer_search(rt, Run::Search(Asker::Restart), line, values)?;
        return Ok(true);
    }
    if asks_search(line, b"restart-edu-search", values) {
        answer_search(rt, Run::Search(Asker::RestartEducation), line, values)?;
        return Ok(true);
    }
    Ok(false)
}
