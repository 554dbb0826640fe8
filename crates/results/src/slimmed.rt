// The result of slimming a file: four numbers, the slimmer file, and the numbers of the clauses that stay.
ghost use Rattle.std.specs.Prelude.{◌≡◌};
ghost use Rattle.text.specs.Put.{Put};
ghost use Rattle.results.specs.Results.{slimmed_text};

use crate::{buffers, line};
use text::{part, put};
use words::fields::wide;

// The whole buffers are given.
pub fn slimmed(
    out: &mut [u8],
    at: usize,
    status: u32,
    place: u32,
    words: u32,
    clauses: u32,
    file: &[u32],
    numbers: &[u32],
) -> usize
    ensures { Put out.old at (slimmed_text status place words clauses file.now numbers.now) out.new result }
{
    let long = wide(words);
    let many = wide(clauses);
    let intact = buffers::both_untouched(part::rest(file, long), part::rest(numbers, many));
    let a = line::counted(out, at, status, place, b" words ", words);
    let b = put::field(out, a, b" clauses ", clauses);
    line::lists(
        out,
        b,
        part::front(file, long),
        part::front(numbers, many),
        intact,
    )
}
