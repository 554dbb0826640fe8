// `ask FILE`: a question put to a text, and the result in plain words; and what the other commands say in the same way.
use crate::arguments::Options;
use crate::streams::Stream;
use crate::{arguments, files, streams};
use assistant::result;
use std::io;
use std::io::IsTerminal;
use text::part;
use tptp::TextRead;
use words::room;

// Room for all that is written of a question.
const SHEET: usize = 1048576;

// Room for what is written; a longer text is cut.
pub const PAGE: usize = 262144;

pub const ANSWER: usize = 4096;

pub fn write(rt: &HostRuntime, to: Stream, page: &[u8], n: usize) -> io::Result<()> {
    streams::write_all(rt, to, part::front(page, n))?;
    if page.len() < n {
        return streams::write_all(rt, to, b" ...\n");
    }
    Ok(())
}

// Never put into its callers: the sheet is the program's largest room, and would lie on the stack of every command.
#[inline(never)]
fn answer(rt: &HostRuntime, o: Options, name: &[u8], text: &[u8]) -> io::Result<()> {
    let asked = answering::Options {
        limit: o.limit,
        budget: o.budget,
        proof: o.proof,
    };
    let watched = rt.stderr().is_terminal();
    let mut out: [u8; SHEET] = room::filled(0);
    let n = answering::ask::ask(rt, watched, asked, name, text, &mut out);
    write(rt, Stream::Output, &out, n)
}

// `ask FILE`.
pub fn ask(rt: &HostRuntime, o: Option<Options>) -> io::Result<()> {
    let Some(o) = o else {
        return arguments::usage(rt);
    };
    files::with_text(rt, arguments::last(rt), |name, text| {
        answer(rt, o, name, text)
    })
}

// Says why a text is refused.
pub fn refuse(
    rt: &HostRuntime,
    to: Stream,
    name: &[u8],
    text: &[u8],
    read: TextRead,
) -> io::Result<()> {
    let mut out: [u8; PAGE] = room::filled(0);
    let n = answering::refuse::refusal(&mut out, 0, name, text, read);
    write(rt, to, &out, n)
}

pub fn status_line(rt: &HostRuntime, name: &[u8], status: &[u8]) -> io::Result<()> {
    let mut out: [u8; PAGE] = room::filled(0);
    let n = result::szs(&mut out, 0, status, name);
    write(rt, Stream::Output, &out, n)
}
