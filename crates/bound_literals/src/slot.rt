// A slot for each literal that each copy may have.
ghost use Rattle.std.specs.Prelude.{◌≡◌, ◌≤◌, ◌<◌, length};
ghost use Rattle.text.specs.Put.{Put};
ghost use Rattle.unification.specs.State.{copies_of};
ghost use Rattle.unification.specs.Good.{Good};
ghost use Rattle.bound_literals.specs.Bound.{slot, slots_from};
ghost use Rattle.bound_literals.specs.Held.{Filled, OffsetFor, words_held};

use crate::walk;
use text::put;
use unification::memory;
use words::fields;

// Where a copy's literal of this number stands among the words of its clause, if there is one.
fn offset(file: &[u32], work: &[u32], copy: u32, number: u32) -> Option<u32>
    requires { Good file.now work.now × (copy < copies_of work.now) }
    ensures { OffsetFor file.now work.now copy number result }
{
    let own = copy * 256;
    let count = fields::following(memory::word_at(file, work, own));
    let mut left = number;
    for offset in 1..count + 1 {
        if fields::kind(memory::word_at(file, work, own + offset)) != 2 {
            continue;
        }
        if left == 0 {
            return Some(offset);
        }
        left -= 1;
    }
    None
}

// The words of a copy's literal, if there is one, as far as a buffer holds them.
fn held(file: &[u32], work: &[u32], copy: u32, number: u32, out: &mut [u32]) -> usize
    requires { Good file.now work.now }
    ensures { Filled out.old 0 (words_held file.now work.now copy number) out.new result }
{
    if work[memory::COPIES] <= copy {
        return 0;
    }
    match offset(file, work, copy, number) {
        Some(at) => walk::literal(file, work, copy * 256 + at, out),
        None => 0,
    }
}

fn words(list: &[u32], out: &mut [u32], from: usize) -> usize
    ensures { Put out.old from list.now out.new result }
{
    let mut at = from;
    for word in list {
        at = put::word(out, at, *word);
    }
    at
}

fn slot(file: &[u32], work: &[u32], copy: u32, number: u32, out: &mut [u32], from: usize) -> usize
    requires { Good file.now work.now }
    ensures { Put out.old from (slot (words_held file.now work.now copy number)) out.new result }
{
    let mut space = [0u32; 65];
    let own = held(file, work, copy, number, &mut space);
    let next = words(&space, out, from);
    put::word(out, next, own as u32)
}

// The slots of 33 copies, 7 each.
pub(crate) fn slots(file: &[u32], work: &[u32], out: &mut [u32]) -> usize
    requires { Good file.now work.now }
    ensures { Put out.old 0 (slots_from (words_held file.now work.now) 0 231) out.new result }
{
    let mut at = 0;
    for i in 0..231 {
        at = slot(file, work, i / 7, i % 7, out, at);
    }
    at
}
