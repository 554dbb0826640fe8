// Gives each file that an argument names to document 01's program: the file's name, and what the program writes.
#![tactic(auto)]

use std::io::Read;
use std::{env, fs, io};
use text::part;

// The most bytes of a file that are read: more than the longest input that is not refused.
const ROOM: u64 = 65536;

fn answer(rt: &HostRuntime, name: &str, input: &[u8]) -> io::Result<()> {
    let mut out = [0u8; 65536];
    let n = asking::program::ask(input, &mut out);
    println!(rt; "{name}")?;
    rt.write_all(part::front(&out, n))
}

// A line on standard error: the file's name, and why it could not be opened, without the number that the error's text ends in.
fn fail(rt: &HostRuntime, name: &str, error: io::Error) -> io::Result<()> {
    let text = format!(in rt.alloc(); "{error}")?;
    let why = text.split(" (os error ").next().unwrap_or("");
    eprintln!(rt; "{name}: {why}")
}

fn answer_named(rt: &HostRuntime, name: &str) -> io::Result<()> {
    match fs::open(rt, name) {
        Ok(file) => {
            let mut input = Vec::new(rt.alloc());
            file.take(ROOM).read_to_end(&mut input)?;
            answer(rt, name, &input)
        }
        Err(e) => fail(rt, name, e),
    }
}

fn main(rt: HostRuntime) -> io::Result<()> {
    for name in env::args(&rt)?.skip(1) {
        answer_named(&rt, name.as_str())?;
    }
    Ok(())
}
