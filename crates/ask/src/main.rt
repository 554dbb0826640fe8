// Document 01's program: reads a question from standard input and writes its answer. What it writes is asking::program::ask.
#![tactic(auto)]

use std::io;
use std::io::Read;
use text::part;

// The most bytes of standard input that are read: more than the longest input that is not refused.
const ROOM: u64 = 65536;

fn answer(rt: &HostRuntime, input: &[u8]) -> io::Result<()> {
    let mut out = [0u8; 65536];
    let n = asking::program::ask(input, &mut out);
    rt.write_all(part::front(&out, n))
}

fn main(rt: HostRuntime) -> io::Result<()> {
    let mut input = Vec::new(rt.alloc());
    rt.reader().take(ROOM).read_to_end(&mut input)?;
    answer(&rt, &input)
}
