// `desk RECORDS DAY HOUSE`: what the records of a day and house say.
use crate::streams::Stream;
use crate::{arguments, files, telling};
use assistant::refusal;
use desk::Report;
use reports::records::Fault;
use reports::{records, said};
use std::io;
use text::part;
use words::room;

// Enough for every question, whatever the records (docs/DESK.md).
const BUDGET: u32 = 2000;

// Room for 500 records, and one more.
const RECORDS: usize = 1503;

fn tell(rt: &HostRuntime, text: &[u8], day: u32, house: u32) -> io::Result<()> {
    let mut words: [u32; RECORDS] = room::filled(0);
    let n = records::gather(text, &mut words);
    let report = desk::ask_desk(part::front(&words, n), day, house, BUDGET, BUDGET, BUDGET);
    let mut out: [u8; telling::PAGE] = room::filled(0);
    let m = said::report(&mut out, 0, day, house, report);
    let to = if matches!(report, Report::Refused | Report::RanOut) {
        Stream::Error
    } else {
        Stream::Output
    };
    telling::write(rt, to, &out, m)
}

fn complain(rt: &HostRuntime, name: &[u8], text: &[u8], f: Fault) -> io::Result<()> {
    let mut out: [u8; telling::PAGE] = room::filled(0);
    let n = said::wrong(&mut out, 0, name, text, f);
    telling::write(rt, Stream::Error, &out, n)
}

fn long(rt: &HostRuntime, name: &[u8], text: &[u8]) -> io::Result<()> {
    let mut out: [u8; telling::PAGE] = room::filled(0);
    let n = refusal::wrong(&mut out, 0, name, text, 0);
    telling::write(rt, Stream::Error, &out, n)
}

fn answer(rt: &HostRuntime, name: &[u8], text: &[u8], day: u32, house: u32) -> io::Result<()> {
    if 65536 < text.len() {
        return long(rt, name, text);
    }
    match records::first_fault(text) {
        None => tell(rt, text, day, house),
        Some(fault) => complain(rt, name, text, fault),
    }
}

// `desk RECORDS DAY HOUSE`.
pub fn desk(rt: &HostRuntime) -> io::Result<()> {
    if arguments::argument_count(rt) != 5 {
        return arguments::usage(rt);
    }
    let (Some(day), Some(house)) = (arguments::number(rt, 3), arguments::number(rt, 4)) else {
        return arguments::usage(rt);
    };
    files::with_text(rt, 2, |name, text| answer(rt, name, text, day, house))
}
