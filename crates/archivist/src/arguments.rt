// The program's arguments: a command, its options, and the names of files last.
ghost use Rattle.std.specs.Prelude.{◌≤◌};

use crate::streams;
use crate::streams::Stream;
use requests::piece;
use std::env::FillError;
use std::io;
use std::rt::Env;
use text::part;

// Limit and budget as they are asked, or else; whether the proof is to be written.
#[derive(Clone, Copy)]
pub struct Options {
    pub limit: u32,
    pub budget: u32,
    pub proof: bool,
}

const HIGHEST_LIMIT: u32 = 32;

const BUDGET: u32 = 10_000_000;

pub fn usage(rt: &HostRuntime) -> io::Result<()> {
    streams::write_all(
        rt,
        Stream::Error,
        b"usage: hukolearu ask [--limit K] [--budget N] [--proof] FILE\n       hukolearu check [--limit K] FILE PROOF\n       hukolearu draw [--limit K] FILE PROOF\n       hukolearu words FILE\n       hukolearu text FILE\n       hukolearu slim FILE\n       hukolearu season [--limit K] [--budget N] FILE QUESTIONS\n       hukolearu desk RECORDS DAY HOUSE\nK is 0 to 32 (else 32), N is 0 to 4294967295 (else 10000000). `man hukolearu` tells more.\n",
    )
}

// An argument's bytes, put at the front of a space; how many they are. None where there is no such argument, or no room for it.
pub fn argument(rt: &HostRuntime, i: usize, space: &mut [u8]) -> usize {
    rt.arg(i, space).unwrap_or(0)
}

fn is_given(rt: &HostRuntime, i: usize) -> bool {
    let mut nothing = [0u8; 0];
    !matches!(rt.arg(i, &mut nothing), Err(FillError::NotPresent))
}

// How many arguments there are, the program's name among them.
pub fn argument_count(rt: &HostRuntime) -> usize {
    for i in 0..usize::MAX {
        if !is_given(rt, i) {
            return i;
        }
    }
    usize::MAX
}

pub fn is(rt: &HostRuntime, i: usize, text: &[u8]) -> bool {
    let mut space = [0u8; 4096];
    let n = argument(rt, i, &mut space);
    piece::is(part::front(&space, n), 0, text)
}

pub fn number(rt: &HostRuntime, i: usize) -> Option<u32> {
    let mut space = [0u8; 4096];
    let n = argument(rt, i, &mut space);
    let said = piece::decimal(part::front(&space, n), 0, b'\n')?;
    Some(said.value)
}

// The argument after a name, where that is among the arguments.
fn following(rt: &HostRuntime, name: &[u8]) -> Option<usize> {
    for i in 2..argument_count(rt) {
        if is(rt, i, name) {
            return Some(i + 1);
        }
    }
    None
}

fn value(rt: &HostRuntime, at: Option<usize>, otherwise: u32) -> Option<u32> {
    match at {
        Some(i) => number(rt, i),
        None => Some(otherwise),
    }
}

// How many arguments an option makes that is given or not: its name and its value.
fn many(at: Option<usize>) -> usize
    ensures { result ≤ 2 }
{
    if at.is_some() { 2 } else { 0 }
}

// The program, the command, the options and the files, and nothing else.
fn counted(
    rt: &HostRuntime,
    limit: Option<usize>,
    budget: Option<usize>,
    proof: Option<usize>,
    files: u8,
) -> bool {
    let valued = many(limit) + many(budget);
    let options = if proof.is_some() { valued + 1 } else { valued };
    argument_count(rt) == 2 + options + usize::from(files)
}

// The options of a command that is given so many files; none where the arguments are not as they should be.
pub fn asked(rt: &HostRuntime, files: u8) -> Option<Options> {
    let limit_at = following(rt, b"--limit");
    let budget_at = following(rt, b"--budget");
    let proof_at = following(rt, b"--proof");
    if !counted(rt, limit_at, budget_at, proof_at, files) {
        return None;
    }
    let limit = value(rt, limit_at, HIGHEST_LIMIT)?;
    let budget = value(rt, budget_at, BUDGET)?;
    if HIGHEST_LIMIT < limit {
        return None;
    }
    Some(Options {
        limit,
        budget,
        proof: proof_at.is_some(),
    })
}

// The options of a command that is given a file and a proof.
pub fn offered(rt: &HostRuntime) -> Option<Options> {
    if following(rt, b"--budget").is_some() || following(rt, b"--proof").is_some() {
        return None;
    }
    asked(rt, 2)
}

// The last argument, which names a file.
pub fn last(rt: &HostRuntime) -> usize {
    from_last(rt, 0)
}

// The argument before the last so many.
pub fn from_last(rt: &HostRuntime, back: usize) -> usize {
    argument_count(rt).saturating_sub(1).saturating_sub(back)
}
