// What a literal's variables are bound to.
ghost use Rattle.std.specs.Prelude.{◌≡◌, ◌+◌, ◌*◌, ◌≤◌, length};
ghost use Rattle.words.specs.Steps.{step_of};
ghost use Rattle.text.specs.Put.{Put};
ghost use Rattle.leaves.specs.Bound.{copies_by, copy_number, slot_at, count_at, words_at, mark_text, bound_cut, has_variable, is_told, told_text};

use crate::leaf::at;
use crate::shown;
use naming::show;
use text::{part, put};
use words::fields::wide;
use words::steps::decode;
use words::{Step, fields};

fn copies_by(w: u32) -> u32
    ensures { result ≡ copies_by (step_of w) }
{
    match decode(w) {
        Step::Extension(_, _) => 1,
        Step::Reduction(_) | Step::Restart | Step::Malformed => 0,
    }
}

// The number of the copy that a step hung.
pub fn copy_number(steps: &[u32], number: u32) -> u32
    ensures { result ≡ copy_number steps.now number }
{
    let mut count: u32 = 0;
    for i in 0..number {
        count += copies_by(at(steps, i));
    }
    count
}

fn has_variable(own: &[u32]) -> bool
    ensures { result ≡ has_variable own.now }
{
    for w in own {
        if fields::kind(*w) == 0 {
            return true;
        }
    }
    false
}

// Where a literal's slot begins.
fn slot(copy: u32, literal: u32) -> usize
    ensures { result ≡ slot_at copy literal }
{
    (wide(copy) * 7 + wide(literal)) * 66
}

fn count(bound: &[u32], copy: u32, literal: u32) -> u32
    ensures { result ≡ count_at bound.now copy literal }
{
    let place = slot(copy, literal) + 65;
    if bound.len() <= place {
        return 0;
    }
    bound[place]
}

// The words that are shown.
fn words(bound: &[u32], copy: u32, literal: u32) -> &[u32]
    ensures result_value { result.now ≡ words_at bound.now copy literal }
    ensures result_len_bound { length result.now ≤ 4096 }
{
    let own = wide(count(bound, copy, literal).min(64));
    part::front(part::rest(bound, slot(copy, literal)), own)
}

fn mark(longer: bool, out: &mut [u8], from: usize) -> usize
    ensures { Put out.old from (mark_text longer) out.new result }
{
    if longer {
        return put::bytes(out, from, b"...");
    }
    from
}

// A literal under what is bound, up to 64 words and 120 bytes.
fn literal_bound(
    text: &[u8],
    index: &[u32],
    bound: &[u32],
    copy: u32,
    literal: u32,
    out: &mut [u8],
    from: usize,
) -> usize
    requires { length index.now ≡ 16896 }
    ensures { Put out.old from (bound_cut text.now index.now bound.now copy literal) out.new result }
{
    let mut space = [0u8; 121];
    let own = words(bound, copy, literal);
    let a = show::words(text, index, part::front(index, 0), 1, own, &mut space, 0);
    let b = mark(64 < count(bound, copy, literal), &mut space, a);
    shown::cut(part::front(&space, b), 120, out, from)
}

// Whether anything is told: the copy has been made, and the literal has variables.
fn is_told(file: &[u32], bound: &[u32], copy: u32, clause: u32, literal: u32) -> bool
    ensures { result ≡ is_told file.now bound.now copy clause literal }
{
    if count(bound, copy, literal) == 0 {
        return false;
    }
    has_variable(show::literal(shown::clause(file, wide(clause)), wide(literal)))
}

// A literal under what is bound, between what comes before it and after it; nothing where nothing is told.
pub fn told(
    text: &[u8],
    index: &[u32],
    file: &[u32],
    bound: &[u32],
    before: &[u8],
    after: &[u8],
    copy: u32,
    clause: u32,
    literal: u32,
    out: &mut [u8],
    from: usize,
) -> usize
    requires { length index.now ≡ 16896 }
    ensures { Put out.old from (told_text (record { text = text.now; index = index.now; file = file.now; bound = bound.now }) before.now after.now copy clause literal) out.new result }
{
    if !is_told(file, bound, copy, clause, literal) {
        return from;
    }
    let a = put::bytes(out, from, before);
    let b = literal_bound(text, index, bound, copy, literal, out, a);
    put::bytes(out, b, after)
}
