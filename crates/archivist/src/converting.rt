// Between clause text and question files.
use crate::arguments::Options;
use crate::streams::Stream;
use crate::{arguments, files, streams, telling};
use assistant::convert;
use std::io;
use text::{part, put};
use words::fields::wide;
use words::room;

// Room for the text of a table.
const TABLE: usize = 262144;

fn write_words(rt: &HostRuntime, file: &[u32]) -> io::Result<()> {
    let mut out: [u8; files::TEXT] = room::filled(0);
    let n = convert::words(&mut out, 0, file);
    streams::write_all(rt, Stream::Output, part::front(&out, n))
}

fn words_of(rt: &HostRuntime, name: &[u8], text: &[u8]) -> io::Result<()> {
    let mut file: [u32; files::FILE] = room::filled(0);
    let read = tptp::call::read(text, &mut file);
    if read.status != 0 {
        return telling::refuse(rt, Stream::Error, name, text, read);
    }
    write_words(rt, part::front(&file, wide(read.words)))
}

// `words FILE`: clause text into a question file, its words lowest byte first.
pub fn words(rt: &HostRuntime, o: Option<Options>) -> io::Result<()> {
    if o.is_none() {
        return arguments::usage(rt);
    }
    files::with_text(rt, arguments::last(rt), |name, text| {
        words_of(rt, name, text)
    })
}

fn complain(rt: &HostRuntime, name: &[u8], status: u32, place: u32) -> io::Result<()> {
    let mut out = [0u8; 4200];
    let a = put::bytes(&mut out, 0, name);
    let b = put::field(&mut out, a, b": no question file: status ", status);
    let c = put::field(&mut out, b, b", place ", place);
    let d = put::byte(&mut out, c, b'\n');
    streams::write_all(rt, Stream::Error, part::front(&out, d))
}

fn write_text(rt: &HostRuntime, name: &[u8], file: &[u32]) -> io::Result<()> {
    let mut out: [u8; TABLE] = room::filled(0);
    let written = clauselines::call::write(file, &mut out);
    if written.status != 0 {
        return complain(rt, name, written.status, written.place);
    }
    streams::write_all(rt, Stream::Output, part::front(&out, wide(written.bytes)))
}

fn text_of(rt: &HostRuntime, name: &[u8], bytes: &[u8]) -> io::Result<()> {
    if bytes.len() % 4 != 0 {
        return complain(rt, name, 4, 0);
    }
    let mut file: [u32; files::FILE] = room::filled(0);
    let n = words::bytes::gather(bytes, &mut file);
    write_text(rt, name, part::front(&file, n))
}

// `text FILE`: a question file into clause text.
pub fn text(rt: &HostRuntime, o: Option<Options>) -> io::Result<()> {
    if o.is_none() {
        return arguments::usage(rt);
    }
    files::with_text(rt, arguments::last(rt), |name, bytes| {
        text_of(rt, name, bytes)
    })
}

fn slim_text(rt: &HostRuntime, name: &[u8], text: &[u8]) -> io::Result<()> {
    let mut file: [u32; files::FILE] = room::filled(0);
    let read = tptp::call::read(text, &mut file);
    if read.status != 0 {
        return telling::refuse(rt, Stream::Error, name, text, read);
    }
    let mut slimmer: [u32; files::FILE] = room::filled(0);
    let mut numbers = [0u32; 512];
    let s = slim::calls::slim(
        part::front(&file, wide(read.words)),
        &mut slimmer,
        &mut numbers,
    );
    write_text(rt, name, part::front(&slimmer, wide(s.words)))
}

// `slim FILE`: clause text without repeats and dead clauses, in the names of order 2.
pub fn slim(rt: &HostRuntime, o: Option<Options>) -> io::Result<()> {
    if o.is_none() {
        return arguments::usage(rt);
    }
    files::with_text(rt, arguments::last(rt), |name, text| {
        slim_text(rt, name, text)
    })
}
