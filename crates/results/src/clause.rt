// The result of a lookup: where the clause begins, how many words it has, and its words.
ghost use Rattle.std.specs.Prelude.{◌≡◌, min, length};
ghost use Rattle.text.specs.Put.{Put};
ghost use Rattle.results.specs.Results.{found_text, clause_text};

use crate::line;
use text::put;

// A length is told in one word.
fn count(list: &[u32]) -> u32
    ensures { result ≡ min (length list.now) 4294967295 }
{
    u32::try_from(list.len()).unwrap_or(u32::MAX)
}

fn found(out: &mut [u8], at: usize, start: u32, list: &[u32]) -> usize
    ensures { Put out.old at (found_text start list.now) out.new result }
{
    let length = count(list);
    let a = put::field(out, at, b"start ", start);
    let b = put::field(out, a, b" length ", length);
    let c = line::barred(out, b, list);
    put::byte(out, c, b'\n')
}

pub fn clause(out: &mut [u8], at: usize, start: u32, list: &[u32]) -> usize
    ensures { Put out.old at (clause_text start list.now) out.new result }
{
    if list.len() == 0 {
        return put::bytes(out, at, b"start - length 0 / -\n");
    }
    found(out, at, start, list)
}
