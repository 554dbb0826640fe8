// The result line of the smallest bound: the bound, and OUTCOME.
ghost use Rattle.std.specs.Prelude.{◌≡◌};
ghost use Rattle.text.specs.Put.{Put};
ghost use Rattle.results.specs.Results.{least_text};

use crate::outcome;
use hukolearu::Outcome;
use text::put;

// As `outcome`, after the bound.
pub fn least(
    out: &mut [u8],
    at: usize,
    bound: u32,
    o: Outcome,
    steps: usize,
    proof: &[u32],
    answer: &[u32],
    work: &[u32],
) -> usize
    ensures { Put out.old at (least_text bound o steps proof.now answer.now work.now) out.new result }
{
    let a = put::field(out, at, b"bound ", bound);
    let b = put::byte(out, a, b' ');
    outcome::outcome(out, b, o, steps, proof, answer, work)
}
