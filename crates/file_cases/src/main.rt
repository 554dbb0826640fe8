// Judges each file that an argument names: its name, status and place, the lengths of four clauses looked up, and a fingerprint of the second.
#![tactic(auto)]

use std::io::Read;
use std::{env, fs, io};

// The most bytes of a file that are read.
const ROOM: u64 = 65536;

fn print_number(rt: &HostRuntime, label: &str, n: usize) -> io::Result<()> {
    print!(rt; "{label}{n}")
}

fn print_length(rt: &HostRuntime, file: &[u32], number: usize) -> io::Result<()> {
    print_number(rt, " ", table::file::lookup(file, number).len())
}

fn print_clauses(rt: &HostRuntime, file: &[u32]) -> io::Result<()> {
    print!(rt; " clauses")?;
    print_length(rt, file, 0)?;
    print_length(rt, file, 1)?;
    print_length(rt, file, 511)?;
    print_length(rt, file, 512)?;
    let second = words::fingerprint::of_words(table::file::lookup(file, 1));
    let second = words::fields::wide(second);
    print!(rt; " second {second:08x}")
}

fn print_judgement(rt: &HostRuntime, name: &str, file: &[u32]) -> io::Result<()> {
    let judgement = table::file::judge(file);
    print!(rt; "{name}")?;
    print_number(rt, " status ", words::fields::wide(judgement.status))?;
    print_number(rt, " place ", words::fields::wide(judgement.place))?;
    print_clauses(rt, file)?;
    println!(rt; "")
}

fn judge_bytes(rt: &HostRuntime, name: &str, bytes: &[u8]) -> io::Result<()> {
    let mut space = [0u32; 16384];
    let n = words::bytes::gather(bytes, &mut space);
    print_judgement(rt, name, &space[..n])
}

// A line on standard error: the file's name, and why it could not be opened, without the number that the error's text ends in.
fn fail(rt: &HostRuntime, name: &str, error: io::Error) -> io::Result<()> {
    let text = format!(in rt.alloc(); "{error}")?;
    let why = text.split(" (os error ").next().unwrap_or("");
    eprintln!(rt; "{name}: {why}")
}

fn judge_named(rt: &HostRuntime, name: &str) -> io::Result<()> {
    match fs::open(rt, name) {
        Ok(file) => {
            let mut bytes = Vec::new(rt.alloc());
            file.take(ROOM).read_to_end(&mut bytes)?;
            judge_bytes(rt, name, &bytes)
        }
        Err(e) => fail(rt, name, e),
    }
}

fn main(rt: HostRuntime) -> io::Result<()> {
    for name in env::args(&rt)?.skip(1) {
        judge_named(&rt, name.as_str())?;
    }
    Ok(())
}
