// Files read whole, as far as they are looked at: a byte more than a text may have.
use crate::streams::Stream;
use crate::{arguments, streams};
use std::fs::File;
use std::io::Read;
use std::{fs, io};
use text::part;
use words::room;

// The bytes of a text that are read: one more than it may have.
pub const TEXT: usize = 65537;

// The words of a file, and of a search's work.
pub const FILE: usize = 16384;

// Fills the text from a file, as far as either goes; how many bytes that is.
fn read_full(file: &mut File, text: &mut [u8]) -> io::Result<usize> {
    let mut done = 0;
    for _ in 0..u64::MAX {
        let n = file.read(&mut text[done..])?;
        if n == 0 {
            break;
        }
        done += n;
    }
    Ok(done)
}

// A name that is not UTF-8 names no file that can be opened here.
fn read_named(rt: &HostRuntime, name: &[u8], text: &mut [u8]) -> io::Result<usize> {
    let Ok(path) = str::from_utf8(name) else {
        return Err(io::Error::from(io::ErrorKind::InvalidFilename));
    };
    let mut file = fs::open(rt, path)?;
    read_full(&mut file, text)
}

// The file's name, and why it was not read, without the number that the error's text ends in.
fn fail(rt: &HostRuntime, name: &[u8], error: io::Error) -> io::Result<()> {
    let text = format!(in rt.alloc(); "{error}")?;
    let why = text.split(" (os error ").next().unwrap_or("");
    streams::write_all(rt, Stream::Error, name)?;
    eprintln!(rt; ": {why}")
}

// How many bytes of a file were read; if it could not be read, a line on standard error says why.
pub fn read(rt: &HostRuntime, name: &[u8], text: &mut [u8]) -> io::Result<Option<usize>> {
    match read_named(rt, name, text) {
        Ok(bytes) => Ok(Some(bytes)),
        Err(e) => {
            fail(rt, name, e)?;
            Ok(None)
        }
    }
}

// Gives the text of a file that an argument names to what is to be done with it, behind the file's name.
pub fn with_text<F: FnOnce(&[u8], &[u8]) -> io::Result<()>>(
    rt: &HostRuntime,
    argument: usize,
    act: F,
) -> io::Result<()>
    requires { F.IsAlwaysCallable act }
{
    let mut space = [0u8; 4096];
    let n = arguments::argument(rt, argument, &mut space);
    let name = part::front(&space, n);
    let mut text: [u8; TEXT] = room::filled(0);
    match read(rt, name, &mut text)? {
        Some(bytes) => act(name, part::front(&text, bytes)),
        None => Ok(()),
    }
}
