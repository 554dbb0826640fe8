// The whole of document 01's program but for reading and writing.
ghost use Rattle.std.specs.Prelude.{◌≡◌, [], ◌≤◌, length, take};
ghost use Rattle.text.specs.Put.{Put};
ghost use Rattle.asking.specs.Program.{readable, asked, said_of, given_text, ask_text};

use crate::report;
use hukolearu::calls;
use text::part;
use words::fields::wide;
use words::{bytes, room};

const INPUT: usize = 16384;

const ANSWER: usize = 4096;

const WORK: usize = 16384;

// Whole words: the bound, the budget and a file of at most 16,000 words.
#[tactic(auto, unfolding(crate::specs::Program::readable))]
fn readable(bytes: usize) -> bool
    ensures { result ≡ readable bytes }
{
    bytes % 4 == 0 && 8 <= bytes && bytes <= 64008
}

fn search(out: &mut [u8], bound: u32, budget: u32, file: &[u32]) -> usize
    ensures { Put out.old 0 (given_text (asked file.now bound budget)) out.new result }
{
    let mut proof: [u32; calls::LONGEST_PROOF] = room::filled(0);
    let mut answer: [u32; ANSWER] = room::filled(0);
    let mut work: [u32; WORK] = room::filled(0);
    let o = calls::search(file, bound, budget, &mut proof, &mut answer, &mut work);
    let steps = wide(o.proof);
    let words = wide(o.answer);
    report::report(
        out,
        0,
        o.status,
        o.place,
        o.tries,
        o.disjuncts,
        part::front(&proof, steps),
        part::front(&answer, words),
    )
}

fn refuse(out: &mut [u8]) -> usize
    ensures { Put out.old 0 (given_text (said_of [])) out.new result }
{
    report::report(out, 0, 4, 0, 0, 0, &[], &[])
}

fn words(out: &mut [u8], input: &[u32]) -> usize
    ensures { Put out.old 0 (given_text (said_of input.now)) out.new result }
{
    if input.len() < 2 {
        return refuse(out);
    }
    search(out, input[0], input[1], &input[2..])
}

fn answer(out: &mut [u8], input: &[u8]) -> usize
    ensures { Put out.old 0 (ask_text input.now) out.new result }
{
    if readable(input.len()) {
        let mut space: [u32; INPUT] = room::filled(0);
        let n = bytes::gather(input, &mut space);
        return words(out, part::front(&space, n));
    }
    refuse(out)
}

// What the program writes for what it reads. A buffer of 65,536 bytes holds every text whole.
pub fn ask(input: &[u8], out: &mut [u8]) -> usize
    ensures put { Put out.old 0 (ask_text input.now) out.new result }
    ensures out_after { 65536 ≤ length out.old → take result out.new ≡ ask_text input.now }
{
    answer(out, input)
}
