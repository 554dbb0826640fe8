// The 32-bit FNV-1a of each line of standard input, in hexadecimal, a line each.
#![tactic(auto)]

use std::io;
use std::io::Read;

// The most bytes of standard input that are read.
const ROOM: u64 = 4096;

fn print_fingerprint(rt: &impl Print, line: &[u8]) -> io::Result<()> {
    let h = words::fingerprint::of_bytes(line);
    println!(rt; "{h:08x}")
}

// A line feed at the end begins no line.
fn print_lines(rt: &impl Print, text: &[u8]) -> io::Result<()> {
    if text.is_empty() {
        return Ok(());
    }
    let lines = text.strip_suffix(b"\n").unwrap_or(text);
    for line in lines.split(|b| *b == b'\n') {
        print_fingerprint(rt, line)?;
    }
    Ok(())
}

fn main(rt: HostRuntime) -> io::Result<()> {
    let mut text = Vec::new(rt.alloc());
    rt.reader().take(ROOM).read_to_end(&mut text)?;
    print_lines(&rt, &text)
}
