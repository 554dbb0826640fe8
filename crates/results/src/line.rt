// The parts that result lines share.
ghost use Rattle.std.specs.Prelude.{◌≡◌};
ghost use Rattle.text.specs.Put.{Put};
ghost use Rattle.results.specs.Results.{barred_text, barred_bytes_text, verdict_text, lists_text, counted_text};

use text::put;

// A list after a bar.
pub fn barred(out: &mut [u8], at: usize, list: &[u32]) -> usize
    ensures { Put out.old at (barred_text list.now) out.new result }
{
    let next = put::bytes(out, at, b" / ");
    put::list(out, next, list)
}

// Bytes after a bar.
pub fn barred_bytes(out: &mut [u8], at: usize, list: &[u8]) -> usize
    ensures { Put out.old at (barred_bytes_text list.now) out.new result }
{
    let next = put::bytes(out, at, b" / ");
    put::byte_list(out, next, list)
}

// The end of a line: whether the lent buffers are as they should be.
pub fn verdict(out: &mut [u8], at: usize, intact: bool) -> usize
    ensures { Put out.old at (verdict_text intact) out.new result }
{
    if intact {
        return put::byte(out, at, b'\n');
    }
    put::bytes(out, at, b" buffers\n")
}

// Two lists, and the end of the line.
pub fn lists(out: &mut [u8], at: usize, first: &[u32], second: &[u32], intact: bool) -> usize
    ensures { Put out.old at (lists_text first.now second.now intact) out.new result }
{
    let a = barred(out, at, first);
    let b = barred(out, a, second);
    verdict(out, b, intact)
}

// The beginning of a line: the status, its place, and how much was written, under a name.
pub fn counted(out: &mut [u8], at: usize, status: u32, place: u32, name: &[u8], count: u32) -> usize
    ensures { Put out.old at (counted_text status place name.now count) out.new result }
{
    let a = put::field(out, at, b"status ", status);
    let b = put::field(out, a, b" place ", place);
    put::field(out, b, name, count)
}
