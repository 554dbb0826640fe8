// A proof written so that it can be read: a step a line.
ghost use Rattle.std.specs.Prelude.{◌≡◌, ◌≤◌, length, take};
ghost use Rattle.text.specs.Put.{Put};
ghost use Rattle.written_proofs.specs.Steps.{names_of, clause_text, extension_text, step_text, steps_text};

use crate::clause;
use text::{part, put};
use words::Step;
use words::fields::wide;
use words::steps::decode;

// A clause by its name, or by its number where its name stands more than once.
fn reference(text: &[u8], places: &[u32], number: u32, out: &mut [u8], from: usize) -> usize
    requires { length places.now ≤ 512 }
    ensures { Put out.old from (clause_text (names_of text.now places.now) number) out.new result }
{
    let name = clause::name(text, places, wide(number));
    if clause::tells(text, places, name, number) {
        return put::bytes(out, from, name);
    }
    put::decimal(out, from, number)
}

fn extension(
    text: &[u8],
    places: &[u32],
    number: u32,
    literal: u32,
    out: &mut [u8],
    from: usize,
) -> usize
    requires { length places.now ≤ 512 }
    ensures { Put out.old from (extension_text (names_of text.now places.now) number literal) out.new result }
{
    let verb = put::bytes(out, from, b"extend ");
    let named = reference(text, places, number, out, verb);
    put::field(out, named, b" ", literal)
}

// A word that is no step is written as it is.
fn step(text: &[u8], places: &[u32], w: u32, out: &mut [u8], from: usize) -> usize
    requires { length places.now ≤ 512 }
    ensures { Put out.old from (step_text (names_of text.now places.now) w) out.new result }
{
    match decode(w) {
        Step::Reduction(height) => put::field(out, from, b"reduce ", height),
        Step::Extension(clause, literal) => extension(text, places, clause, literal, out, from),
        Step::Restart | Step::Malformed => put::hex(out, from, w),
    }
}

fn lines(text: &[u8], places: &[u32], steps: &[u32], out: &mut [u8], from: usize) -> usize
    requires { length places.now ≤ 512 }
    ensures { Put out.old from (steps_text (names_of text.now places.now) steps.now) out.new result }
{
    let mut at = from;
    for w in steps {
        let written = step(text, places, *w, out, at);
        at = put::byte(out, written, b'\n');
    }
    at
}

pub fn proof(text: &[u8], places: &[u32], steps: &[u32], out: &mut [u8], from: usize) -> usize
    ensures { Put out.old from (steps_text (names_of text.now (take 512 places.now)) steps.now) out.new result }
{
    lines(text, part::front(places, 512), steps, out, from)
}
