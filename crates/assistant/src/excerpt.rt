// The bytes around a place.
ghost use Rattle.std.specs.Prelude.{◌≡◌, ◌+◌, ◌-◌, ◌≤◌, min, length, replicate};
ghost use Rattle.text.specs.Put.{Put};
ghost use Rattle.assistant.specs.Place.{shown_byte, shown_line, shown_before, around_text, mark_text, excerpt_text};

use text::{part, put};

fn shown(c: u8) -> u8
    ensures { result ≡ shown_byte c }
{
    match c {
        32..=126 => c,
        _ => b'?',
    }
}

// Bytes up to the end of their line.
fn show(out: &mut [u8], from: usize, own: &[u8]) -> usize
    ensures { Put out.old from (shown_line own.now) out.new result }
{
    let mut at = from;
    for c in own {
        if *c == b'\n' {
            return at;
        }
        at = put::byte(out, at, shown(*c));
    }
    at
}

fn blanks(out: &mut [u8], from: usize, n: usize) -> usize
    ensures { Put out.old from (replicate n 32) out.new result }
{
    let mut at = from;
    for _ in 0..n {
        at = put::byte(out, at, b' ');
    }
    at
}

// How many bytes of the line are shown before the place.
fn shown_before(column: usize) -> usize
    requires { 1 ≤ column }
    ensures { result ≡ shown_before column }
{
    (column - 1).min(40)
}

// The bytes around the place after some bytes.
fn around(out: &mut [u8], at: usize, before: &[u8], rest: &[u8], back: usize) -> usize
    requires { back ≤ length before.now }
    ensures { Put out.old at (around_text before.now rest.now back) out.new result }
{
    let near = part::rest(before, before.len() - back);
    let far = part::front(rest, 40);
    let a = put::bytes(out, at, b"  ");
    let b = show(out, a, near);
    show(out, b, far)
}

// A mark below the place.
fn mark(out: &mut [u8], at: usize, back: usize) -> usize
    ensures { Put out.old at (mark_text back) out.new result }
{
    let a = put::bytes(out, at, b"\n  ");
    let b = blanks(out, a, back);
    put::bytes(out, b, b"^\n")
}

// The bytes around the place after some bytes, and a mark below it.
pub fn excerpt(out: &mut [u8], at: usize, before: &[u8], rest: &[u8], column: usize) -> usize
    requires { (1 ≤ column) × (column ≤ length before.now + 1) }
    ensures { Put out.old at (excerpt_text before.now rest.now column) out.new result }
{
    let back = shown_before(column);
    let a = around(out, at, before, rest, back);
    mark(out, a, back)
}
