// `check FILE PROOF`: a partner's proof against a text; `draw FILE PROOF`: its closed tableau as Graphviz text.
use crate::arguments::Options;
use crate::named::{BOUND, INDEX, Named};
use crate::streams::Stream;
use crate::{arguments, files, streams, telling};
use hukolearu::{Outcome, calls, status};
use std::io;
use text::{part, put};
use verdicts::{unreadable, verdict};
use words::fields::wide;
use words::room;
use written_proofs::read;
use written_proofs::read::Reading;

// As many steps as a text of 65,536 bytes can hold.
const STEPS: usize = 32769;

// A proof that is offered for a text, under the names of both files; whether its tableau is to be drawn, and the largest bound.
#[derive(Clone, Copy)]
struct Offer<'a> {
    drawn: bool,
    limit: u32,
    name: &'a [u8],
    text: &'a [u8],
    proof: &'a [u8],
    said: &'a [u8],
}

impl Offer<'_> {
    // A drawing is the only thing on standard output: what is said goes elsewhere.
    fn said_to(self) -> Stream {
        if self.drawn {
            Stream::Error
        } else {
            Stream::Output
        }
    }

    // The line for other tools, where there is no drawing.
    fn ended(self, rt: &HostRuntime, status: &[u8]) -> io::Result<()> {
        if self.drawn {
            return Ok(());
        }
        telling::status_line(rt, self.name, status)
    }

    fn refuse_proof(self, rt: &HostRuntime, reading: Reading) -> io::Result<()> {
        let mut out: [u8; telling::PAGE] = room::filled(0);
        let place = reading.place;
        let awaited = reading.awaited;
        let n = unreadable::wrong(self.proof, self.said, place, awaited, &mut out, 0);
        telling::write(rt, self.said_to(), &out, n)?;
        self.ended(rt, b"InputError")
    }

    fn refuse_long(self, rt: &HostRuntime) -> io::Result<()> {
        let to = self.said_to();
        streams::write_all(rt, to, self.proof)?;
        streams::write_all(rt, to, b": the proof is longer than 65536 bytes\n")?;
        self.ended(rt, b"InputError")
    }

    // What the checker says of the steps.
    fn judge(self, rt: &HostRuntime, named: Named, steps: &[u32]) -> io::Result<()> {
        let mut answer: [u32; telling::ANSWER] = room::filled(0);
        let mut work: [u32; files::FILE] = room::filled(0);
        let o = calls::check_proof(named.file, self.limit, steps, &mut answer, &mut work);
        let accepted = o.status == status::DONE || o.status == status::ANSWER_TOO_LONG;
        if accepted && self.drawn {
            return named.draw(rt, steps);
        }
        if o.status == status::DONE {
            return tell_accepted(rt, named, o, steps, part::front(&answer, wide(o.answer)));
        }
        if o.status == status::ANSWER_TOO_LONG {
            return tell_too_long(rt, named, steps);
        }
        tell_refused(rt, self.said_to(), named, o, steps)?;
        self.ended(rt, b"Unknown")
    }

    // The proof read against the names of the text.
    fn read_proof(self, rt: &HostRuntime, file: &[u32]) -> io::Result<()> {
        let mut index: [u32; INDEX] = room::filled(0);
        naming::index::index(self.text, &mut index);
        let mut steps: [u32; STEPS] = room::filled(0);
        let reading = read::proof(self.text, part::rest(&index, 8192), self.said, &mut steps);
        if !reading.whole {
            return self.refuse_proof(rt, reading);
        }
        let named = Named {
            name: self.name,
            text: self.text,
            index: &index,
            file,
            limit: self.limit,
        };
        self.judge(rt, named, part::front(&steps, reading.steps))
    }

    fn read(self, rt: &HostRuntime) -> io::Result<()> {
        let mut file: [u32; files::FILE] = room::filled(0);
        let read = tptp::call::read(self.text, &mut file);
        if read.status != 0 {
            telling::refuse(rt, self.said_to(), self.name, self.text, read)?;
            return self.ended(rt, b"InputError");
        }
        if 65536 < self.said.len() {
            return self.refuse_long(rt);
        }
        self.read_proof(rt, part::front(&file, wide(read.words)))
    }
}

// The answer, and the clauses behind it.
fn tell_accepted(
    rt: &HostRuntime,
    named: Named,
    o: Outcome,
    steps: &[u32],
    answer: &[u32],
) -> io::Result<()> {
    let mut out: [u8; telling::PAGE] = room::filled(0);
    let a = verdict::accepted(o.disjuncts, o.proof, &mut out, 0);
    let b = named.show_answer(answer, &mut out, a);
    let c = put::byte(&mut out, b, b'\n');
    telling::write(rt, Stream::Output, &out, c)?;
    named.tell_behind(rt, steps)?;
    telling::status_line(rt, named.name, b"Unsatisfiable")
}

fn tell_too_long(rt: &HostRuntime, named: Named, steps: &[u32]) -> io::Result<()> {
    let mut out: [u8; telling::PAGE] = room::filled(0);
    let count = u32::try_from(steps.len()).unwrap_or(u32::MAX);
    let n = verdict::too_long(count, &mut out, 0);
    telling::write(rt, Stream::Output, &out, n)?;
    named.tell_behind(rt, steps)?;
    telling::status_line(rt, named.name, b"Unsatisfiable")
}

// The first step that is wrong.
fn tell_refused(
    rt: &HostRuntime,
    to: Stream,
    named: Named,
    o: Outcome,
    steps: &[u32],
) -> io::Result<()> {
    if o.place == u32::MAX {
        return Ok(());
    }
    let mut bound: [u32; BOUND] = room::filled(0);
    named.bind(part::front(steps, wide(o.place)), &mut bound);
    let mut out: [u8; telling::PAGE] = room::filled(0);
    let index = named.index;
    let n = verdict::refused(
        named.text,
        index,
        named.file,
        &bound,
        steps,
        named.limit,
        o.status,
        o.place,
        &mut out,
        0,
    );
    telling::write(rt, to, &out, n)
}

// `check FILE PROOF`, or `draw FILE PROOF`.
pub fn check(rt: &HostRuntime, drawn: bool, o: Option<Options>) -> io::Result<()> {
    let Some(o) = o else {
        return arguments::usage(rt);
    };
    let limit = o.limit;
    files::with_text(rt, arguments::from_last(rt, 1), |name, text| {
        files::with_text(rt, arguments::last(rt), |proof, said| {
            let offer = Offer {
                drawn,
                limit,
                name,
                text,
                proof,
                said,
            };
            offer.read(rt)
        })
    })
}
