// The result of the desk's three questions: the status, and what the desk says to each.
ghost use Rattle.std.specs.Prelude.{◌≡◌};
ghost use Rattle.text.specs.Put.{Put};
ghost use Rattle.results.specs.Results.{slots_text, desk_text};

use text::put;

fn slots(out: &mut [u8], at: usize, matinee: u32, evening: u32, either: u32) -> usize
    ensures { Put out.old at (slots_text matinee evening either) out.new result }
{
    let a = put::field(out, at, b" matinee ", matinee);
    let b = put::field(out, a, b" evening ", evening);
    put::field(out, b, b" either ", either)
}

pub fn desk(
    out: &mut [u8],
    at: usize,
    status: u32,
    matinee: u32,
    evening: u32,
    either: u32,
) -> usize
    ensures { Put out.old at (desk_text status matinee evening either) out.new result }
{
    let a = put::field(out, at, b"status ", status);
    let b = slots(out, a, matinee, evening, either);
    put::byte(out, b, b'\n')
}
