// A text that was read, with the names in it: what is shown of it is shown in those.
use crate::streams::Stream;
use crate::{files, streams, telling};
use assistant::result;
use drawing::graph;
use naming::{lookup, show};
use requests::piece;
use std::io;
use text::part;
use words::fields::wide;
use words::{fields, room};

// The words of an index of names.
pub const INDEX: usize = 16896;

// The slots of a binding: one for each literal of each copy.
pub const BOUND: usize = 15246;

// Room for the clauses behind a proof: at most 200 lines.
const LISTING: usize = 262144;

// The file's name, its text, the names in it, its words, and the largest bound.
#[derive(Clone, Copy)]
pub struct Named<'a> {
    pub name: &'a [u8],
    pub text: &'a [u8],
    pub index: &'a [u32; INDEX],
    pub file: &'a [u32],
    pub limit: u32,
}

impl Named<'_> {
    // What the variables are bound to after these steps.
    pub fn bind(self, steps: &[u32], bound: &mut [u32]) {
        let mut work: [u32; files::FILE] = room::filled(0);
        bound_literals::call::literals(self.file, self.limit, steps, bound, &mut work);
    }

    // The closed tableau of an accepted proof as Graphviz text.
    pub fn draw(self, rt: &HostRuntime, steps: &[u32]) -> io::Result<()> {
        let mut bound: [u32; BOUND] = room::filled(0);
        self.bind(steps, &mut bound);
        let mut out: [u8; telling::PAGE] = room::filled(0);
        let index = self.index;
        let n = graph::draw(self.text, index, self.file, &bound, steps, &mut out, 0);
        telling::write(rt, Stream::Output, &out, n)
    }

    // The answer in names, which has at most 4,096 words.
    pub fn show_answer(self, words: &[u32], out: &mut [u8], at: usize) -> usize {
        if words.len() > 4096 {
            return at;
        }
        let literals = question_literals(self.file);
        let index = self.index;
        show::words(self.text, index, &[], literals, words, out, at)
    }

    // The clauses behind the answer by their own names, each with how often it was used.
    pub fn tell_behind(self, rt: &HostRuntime, steps: &[u32]) -> io::Result<()> {
        let mut listing: [u8; LISTING] = room::filled(0);
        let mut work: [u32; files::FILE] = room::filled(0);
        let listed = listing::call::listing(self.file, self.limit, steps, &mut listing, &mut work);
        streams::write_all(
            rt,
            Stream::Output,
            b"Clauses behind it, and how often each was used:\n",
        )?;
        self.behind_lines(rt, part::front(&listing, wide(listed.bytes)))
    }

    fn behind_lines(self, rt: &HostRuntime, listing: &[u8]) -> io::Result<()> {
        for line in listing.split(|b| *b == b'\n') {
            self.behind_line(rt, line)?;
        }
        Ok(())
    }

    // A line of the listing, in the clause's own name: its number, how often it was used, and the clause.
    fn behind_line(self, rt: &HostRuntime, line: &[u8]) -> io::Result<()> {
        let Some(number) = piece::decimal(line, 0, b' ') else {
            return Ok(());
        };
        let Some(copies) = piece::decimal(line, number.next, b' ') else {
            return Ok(());
        };
        let index = self.index;
        let places = part::rest(index, 8192);
        let name = lookup::name(self.text, places, wide(number.value));
        let mut out: [u8; telling::PAGE] = room::filled(0);
        let n = result::behind(&mut out, 0, name, copies.value);
        telling::write(rt, Stream::Output, &out, n)
    }
}

// How many literals the question of a file has.
fn question_literals(file: &[u32]) -> usize {
    match question(file).first() {
        Some(word) => wide(fields::literals(*word)),
        None => 0,
    }
}

fn question(file: &[u32]) -> &[u32] {
    if file.len() < 4 {
        return part::front(file, 0);
    }
    let clauses = wide(file[file.len() - 3]);
    if clauses == 0 {
        return part::front(file, 0);
    }
    table::file::lookup(file, clauses - 1)
}
