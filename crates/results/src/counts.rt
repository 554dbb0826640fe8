// The result of a season report: the status and its place, the six counts and the sum of tries, and what the runs left in the buffers.
ghost use Rattle.std.specs.Prelude.{◌≡◌};
ghost use Rattle.text.specs.Put.{Put};
ghost use Rattle.results.specs.Buffers.{written};
ghost use Rattle.results.specs.Results.{found_counts_text, other_counts_text, last_counts_text, season_text};

use crate::{buffers, line};
use season::Report;
use text::{part, put};

fn found_counts(out: &mut [u8], at: usize, r: Report) -> usize
    ensures { Put out.old at (found_counts_text r) out.new result }
{
    let a = line::counted(out, at, r.status, r.place, b" definite ", r.definite);
    put::field(out, a, b" indefinite ", r.indefinite)
}

fn other_counts(out: &mut [u8], at: usize, r: Report) -> usize
    ensures { Put out.old at (other_counts_text r) out.new result }
{
    let a = put::field(out, at, b" none ", r.none);
    let b = put::field(out, a, b" ranout ", r.ranout);
    put::field(out, b, b" toolong ", r.toolong)
}

fn last_counts(out: &mut [u8], at: usize, r: Report) -> usize
    ensures { Put out.old at (last_counts_text r) out.new result }
{
    let a = put::field(out, at, b" refused ", r.refused);
    put::long_field(out, a, b" tries ", r.tries)
}

// The whole buffers are given.
pub fn season(
    out: &mut [u8],
    at: usize,
    r: Report,
    proof: &[u32],
    answer: &[u32],
    work: &[u32],
) -> usize
    ensures { Put out.old at (season_text r proof.now answer.now work.now) out.new result }
{
    let intact = buffers::work_kept(r.status, work);
    let steps = buffers::written(proof);
    let words = buffers::written(answer);
    let a = found_counts(out, at, r);
    let b = other_counts(out, a, r);
    let c = last_counts(out, b, r);
    line::lists(
        out,
        c,
        part::front(proof, steps),
        part::front(answer, words),
        intact,
    )
}
