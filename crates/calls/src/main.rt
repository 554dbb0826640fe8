// Answers requests from standard input, one a line: every public call, its buffers filled before it and looked over after it.
// A verb is a row in one of the functions that `answer_request` asks, a function that makes the call, and its result line in `results`.
#![tactic(auto)]

ghost use Rattle.std.specs.Prelude.{◌≤◌, ◌<◌, length};

use requests::piece;
use search_verbs::{check, search};
use std::io;
use std::io::Read;
use table_verbs::{tables, texts};
use text::{part, put};
use words::room;

fn answer_request(rt: &HostRuntime, line: &[u8]) -> io::Result<()> {
    let mut values: [usize; lent::VALUE_ROOM] = room::filled(0);
    if search::answer_searches(rt, line, &mut values)? {
        return Ok(());
    }
    if check::answer_checks(rt, line, &mut values)? {
        return Ok(());
    }
    if tables::answer_tables(rt, line, &mut values)? {
        return Ok(());
    }
    if texts::answer_texts(rt, line, &mut values)? {
        return Ok(());
    }
    println!(rt; "error")
}

// Empty lines and lines that begin with `#` have no result; a line that fills the buffer is too long to read.
fn answer_line(rt: &HostRuntime, line: &[u8], full: bool) -> io::Result<()> {
    if line.len() == 0 {
        return Ok(());
    }
    if line[0] == b'#' {
        return Ok(());
    }
    if full {
        return println!(rt; "error");
    }
    answer_request(rt, line)
}

// Answers a line that has ended; how long the line is then.
fn end_line(rt: &HostRuntime, line: &[u8], used: usize, ended: bool) -> io::Result<usize> {
    if ended {
        answer_line(rt, part::front(line, used), line.len() <= used)?;
        return Ok(0);
    }
    Ok(used)
}

#[tactic(auto, using(crate::proofs::Ends::line_within, crate::proofs::Ends::line_begins))]
fn line_end(chunk: &[u8], at: usize) -> usize
    requires { at < length chunk.now }
    ensures { (at ≤ result) × (result ≤ length chunk.now) }
{
    piece::end_of(chunk, at, b'\n')
}

// Adds what was read to the line, and answers each line that ends in it.
fn feed(rt: &HostRuntime, chunk: &[u8], line: &mut [u8], from: usize) -> io::Result<usize> {
    let mut used = from;
    let mut at = 0;
    while at < chunk.len() {
        let end = line_end(chunk, at);
        let next = put::bytes(line, used, &chunk[at..end]);
        used = end_line(rt, line, next, end < chunk.len())?;
        at = end + 1;
    }
    Ok(used)
}

// How long the line is so far, and whether there may be more to read.
#[derive(Clone, Copy)]
pub struct Fed {
    pub used: usize,
    pub more: bool,
}

// Reads once. The last line may lack its line feed.
fn read_some(rt: &HostRuntime, line: &mut [u8], used: usize) -> io::Result<Fed> {
    let mut chunk = [0u8; 65536];
    let n = rt.stdin().read(&mut chunk)?;
    if n == 0 {
        end_line(rt, line, used, true)?;
        return Ok(Fed {
            used: 0,
            more: false,
        });
    }
    let next = feed(rt, &chunk[..n], line, used)?;
    Ok(Fed {
        used: next,
        more: true,
    })
}

fn serve(rt: &HostRuntime, line: &mut [u8]) -> io::Result<()> {
    let mut used = 0;
    for _ in 0..u64::MAX {
        let fed = read_some(rt, line, used)?;
        if !fed.more {
            break;
        }
        used = fed.used;
    }
    Ok(())
}

fn main(rt: HostRuntime) -> io::Result<()> {
    let mut line: [u8; lent::LINE_ROOM] = room::filled(0);
    serve(&rt, &mut line)
}
