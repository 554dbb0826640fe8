// The results of reading a text and of writing one.
ghost use Rattle.std.specs.Prelude.{◌≡◌};
ghost use Rattle.text.specs.Put.{Put};
ghost use Rattle.results.specs.Results.{read_text, byte_line_text, written_text, listed_text};

use crate::{buffers, line};
use text::part;
use words::fields::wide;

// A file read from a text. The file's whole buffer is given.
pub fn read_text(
    out: &mut [u8],
    at: usize,
    status: u32,
    place: u32,
    words: u32,
    file: &[u32],
) -> usize
    ensures { Put out.old at (read_text status place words file.now) out.new result }
{
    let long = wide(words);
    let intact = buffers::untouched(part::rest(file, long));
    let a = line::counted(out, at, status, place, b" words ", words);
    let b = line::barred(out, a, part::front(file, long));
    line::verdict(out, b, intact)
}

// The bytes of a text after its three numbers. The text's whole buffer is given.
fn byte_line(
    out: &mut [u8],
    at: usize,
    status: u32,
    place: u32,
    count: u32,
    text: &[u8],
    intact: bool,
) -> usize
    ensures { Put out.old at (byte_line_text status place count text.now intact) out.new result }
{
    let a = line::counted(out, at, status, place, b" bytes ", count);
    let b = line::barred_bytes(out, a, part::front(text, wide(count)));
    line::verdict(out, b, intact)
}

// A text written. The text's whole buffer is given.
pub fn written_text(
    out: &mut [u8],
    at: usize,
    status: u32,
    place: u32,
    count: u32,
    text: &[u8],
) -> usize
    ensures { Put out.old at (written_text status place count text.now) out.new result }
{
    let intact = buffers::untouched_bytes(part::rest(text, wide(count)));
    byte_line(out, at, status, place, count, text, intact)
}

// A listing. The whole buffers of the listing and of the work words are given.
pub fn listed_text(
    out: &mut [u8],
    at: usize,
    status: u32,
    place: u32,
    count: u32,
    text: &[u8],
    work: &[u32],
) -> usize
    ensures { Put out.old at (listed_text status place count text.now work.now) out.new result }
{
    let intact = buffers::text_kept(status, part::rest(text, wide(count)), work);
    byte_line(out, at, status, place, count, text, intact)
}
