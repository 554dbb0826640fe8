// OUTCOME: the six numbers of a search or a check, the words that it wrote, and whether its buffers are as they should be.
ghost use Rattle.std.specs.Prelude.{◌≡◌};
ghost use Rattle.text.specs.Put.{Put};
ghost use Rattle.results.specs.Results.{first_numbers_text, last_numbers_text, outcome_text};

use crate::{buffers, line};
use hukolearu::Outcome;
use text::{part, put};
use words::fields::wide;

fn first_numbers(out: &mut [u8], at: usize, o: Outcome) -> usize
    ensures { Put out.old at (first_numbers_text o) out.new result }
{
    let a = put::field(out, at, b"status ", o.status);
    let b = put::field(out, a, b" place ", o.place);
    put::field(out, b, b" proof ", o.proof)
}

fn last_numbers(out: &mut [u8], at: usize, o: Outcome) -> usize
    ensures { Put out.old at (last_numbers_text o) out.new result }
{
    let a = put::field(out, at, b" disjuncts ", o.disjuncts);
    let b = put::field(out, a, b" answer ", o.answer);
    put::field(out, b, b" tries ", o.tries)
}

// The whole buffers are given, with the number of words that were written into the proof buffer.
pub fn outcome(
    out: &mut [u8],
    at: usize,
    o: Outcome,
    steps: usize,
    proof: &[u32],
    answer: &[u32],
    work: &[u32],
) -> usize
    ensures { Put out.old at (outcome_text o steps proof.now answer.now work.now) out.new result }
{
    let words = wide(o.answer);
    let intact = buffers::kept(
        o.status,
        part::rest(proof, steps),
        part::rest(answer, words),
        work,
    );
    let a = first_numbers(out, at, o);
    let b = last_numbers(out, a, o);
    line::lists(
        out,
        b,
        part::front(proof, steps),
        part::front(answer, words),
        intact,
    )
}
