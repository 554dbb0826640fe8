// `season FILE QUESTIONS`: many questions put to one table, each in the place of its own, bound by bound as `ask` does.
use crate::arguments::Options;
use crate::streams::Stream;
use crate::{arguments, files, telling};
use assistant::{place, refusal};
use clausetext::judge::judge_text;
use clausetext::stuck;
use hukolearu::calls;
use naming::lookup;
use reports::{clauses, counts};
use season::Report;
use std::io;
use text::{part, put};
use tptp::TextRead;
use words::fields::wide;
use words::room;

// Room for a text of questions, and a byte more.
const QUESTIONS: usize = 262145;

// Room for a table with a question behind it.
const JOINED: usize = 131080;

// Questions of a file under its name, put to a table's text.
#[derive(Clone, Copy)]
struct Questions<'a> {
    limit: u32,
    budget: u32,
    table: &'a [u8],
    name: &'a [u8],
    list: &'a [u8],
}

// A report of no question.
fn nothing() -> Report {
    Report {
        status: 0,
        place: 0,
        definite: 0,
        indefinite: 0,
        none: 0,
        ranout: 0,
        toolong: 0,
        refused: 0,
        tries: 0,
    }
}

// A report of a question that is refused.
fn refused() -> Report {
    Report {
        refused: 1,
        ..nothing()
    }
}

// File and line.
fn label(out: &mut [u8], name: &[u8], text: &[u8], at: usize) -> usize {
    let p = place::locate(part::front(text, at));
    let a = put::bytes(out, 0, name);
    place::labelled(out, a, b":", p.line)
}

// A clause that is no clause: where, and what was expected.
fn tell_wrong(
    rt: &HostRuntime,
    name: &[u8],
    text: &[u8],
    from: usize,
    place: usize,
) -> io::Result<Report> {
    let mut out: [u8; telling::PAGE] = room::filled(0);
    let n = refusal::wrong_in(&mut out, 0, name, text, from, place);
    telling::write(rt, Stream::Output, &out, n)?;
    let mut space = [0u8; 4096];
    let m = label(&mut space, name, text, place);
    telling::status_line(rt, part::front(&space, m), b"InputError")?;
    Ok(refused())
}

fn tell_no_question(rt: &HostRuntime, label: &[u8]) -> io::Result<Report> {
    let mut out: [u8; telling::PAGE] = room::filled(0);
    let n = counts::no_question(&mut out, 0, label);
    telling::write(rt, Stream::Output, &out, n)?;
    telling::status_line(rt, label, b"InputError")?;
    Ok(refused())
}

// Bounds 0, 1, 2 up to the limit with one budget for all.
fn put_question(file: &[u32], limit: u32, budget: u32) -> Report {
    let mut proof: [u32; calls::LONGEST_PROOF] = room::filled(0);
    let mut answer: [u32; telling::ANSWER] = room::filled(0);
    let mut work: [u32; files::FILE] = room::filled(0);
    let least = smallest::smallest(file, limit, budget, &mut proof, &mut answer, &mut work);
    counts::alone(least.outcome)
}

fn tell(rt: &HostRuntime, label: &[u8], text: &[u8], r: Report) -> io::Result<()> {
    let at = stuck::question_name(text, 1);
    if 65536 < at {
        return Ok(());
    }
    let places = [at as u32];
    let name = lookup::name(text, &places, 0);
    let mut out: [u8; telling::PAGE] = room::filled(0);
    let a = counts::question(&mut out, 0, label, name, r);
    let b = counts::szs(&mut out, a, name, r);
    telling::write(rt, Stream::Output, &out, b)
}

impl Questions<'_> {
    // A table's text with one clause behind it.
    fn ask_joined(self, rt: &HostRuntime, label: &[u8], text: &[u8]) -> io::Result<Report> {
        let mut file: [u32; files::FILE] = room::filled(0);
        let read = tptp::call::read(text, &mut file);
        if read.status != 0 {
            telling::refuse(rt, Stream::Output, label, text, read)?;
            telling::status_line(rt, label, b"InputError")?;
            return Ok(refused());
        }
        let own = part::front(&file, wide(read.words));
        let r = put_question(own, self.limit, self.budget);
        tell(rt, label, text, r)?;
        Ok(r)
    }

    // A clause of the questions, read as if it stood in the table's text.
    fn ask_clause(self, rt: &HostRuntime, label: &[u8], clause: &[u8]) -> io::Result<Report> {
        let mut joined: [u8; JOINED] = room::filled(0);
        let a = put::bytes(&mut joined, 0, self.table);
        let b = put::byte(&mut joined, a, b'\n');
        let c = put::bytes(&mut joined, b, clause);
        self.ask_joined(rt, label, part::front(&joined, c))
    }

    // The clause of the questions that begins at a place and ends at another; blanks and comments after the last are none.
    fn ask_next(self, rt: &HostRuntime, from: usize, end: usize) -> io::Result<Report> {
        let clause = part::rest(part::front(self.list, end), from);
        let mut space = [0u8; 4096];
        match judge_text(clause) {
            Err(place) => {
                let at = from.saturating_add(place);
                tell_wrong(rt, self.name, self.list, from, at)
            }
            Ok(counts) => {
                if counts.clauses == 0 {
                    return Ok(nothing());
                }
                let at = from.saturating_add(stuck::question_name(clause, 1));
                let n = label(&mut space, self.name, self.list, at);
                let place = part::front(&space, n);
                if counts.questions == 0 {
                    return tell_no_question(rt, place);
                }
                self.ask_clause(rt, place, clause)
            }
        }
    }
}

fn ask_all(rt: &HostRuntime, asked: Questions) -> io::Result<Report> {
    let questions = asked.list;
    let mut total = nothing();
    let mut at = 0;
    while at < questions.len() {
        let end = clauses::clause_end(questions, at);
        let one = asked.ask_next(rt, at, end)?;
        total = counts::added(total, one);
        at = end;
    }
    Ok(total)
}

// The table without its own question.
fn ask_table(
    rt: &HostRuntime,
    o: Options,
    name: &[u8],
    text: &[u8],
    list: &[u8],
    questions: &[u8],
) -> io::Result<()> {
    let mut table: [u8; files::TEXT] = room::filled(0);
    let n = clauses::stated(text, &mut table);
    let asked = Questions {
        limit: o.limit,
        budget: o.budget,
        table: part::front(&table, n),
        name: list,
        list: questions,
    };
    let total = ask_all(rt, asked)?;
    let mut out: [u8; telling::PAGE] = room::filled(0);
    let m = counts::report(&mut out, 0, name, o.limit, o.budget, total);
    telling::write(rt, Stream::Output, &out, m)
}

fn put_season(
    rt: &HostRuntime,
    o: Options,
    name: &[u8],
    text: &[u8],
    list: &[u8],
    questions: &[u8],
) -> io::Result<()> {
    match judge_text(text) {
        Err(place) => {
            let read = TextRead {
                status: 17,
                place: u32::try_from(place).unwrap_or(u32::MAX),
                words: 0,
            };
            telling::refuse(rt, Stream::Output, name, text, read)?;
            telling::status_line(rt, name, b"InputError")
        }
        Ok(_) => ask_table(rt, o, name, text, list, questions),
    }
}

fn complain(rt: &HostRuntime, name: &[u8]) -> io::Result<()> {
    let mut out: [u8; telling::PAGE] = room::filled(0);
    let n = place::both(
        &mut out,
        0,
        name,
        b": the questions are longer than 262144 bytes\n",
    );
    telling::write(rt, Stream::Error, &out, n)
}

fn with_questions(rt: &HostRuntime, o: Options, name: &[u8], text: &[u8]) -> io::Result<()> {
    let mut space = [0u8; 4096];
    let n = arguments::argument(rt, arguments::last(rt), &mut space);
    let list = part::front(&space, n);
    let mut questions: [u8; QUESTIONS] = room::filled(0);
    let Some(bytes) = files::read(rt, list, &mut questions)? else {
        return Ok(());
    };
    if 262144 < bytes {
        return complain(rt, list);
    }
    put_season(rt, o, name, text, list, part::front(&questions, bytes))
}

// `season FILE QUESTIONS`.
pub fn season(rt: &HostRuntime, o: Option<Options>) -> io::Result<()> {
    let Some(o) = o else {
        return arguments::usage(rt);
    };
    files::with_text(rt, arguments::from_last(rt, 1), |name, text| {
        with_questions(rt, o, name, text)
    })
}
