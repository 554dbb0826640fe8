// The words of a literal under what is bound, as far as a buffer holds them: a walk ends where the buffer does, however large the terms are.
ghost use Rattle.std.specs.Prelude.{[], ◌∷◌, ◌≡◌, ◌/◌, ◌≤◌, length};
ghost use Rattle.std.proofs.Math.Option.{some};
ghost use Rattle.unification.specs.State.{Points, literal_at_reference};
ghost use Rattle.unification.specs.Good.{word_at, Ahead, LiteralStands, Good};
ghost use Rattle.answers.specs.Writing.{word_items, term_items, resolved};
ghost use Rattle.bound_literals.specs.Bound.{words_under};
ghost use Rattle.bound_literals.specs.Held.{Filled, named};

use unification::{memory, terms};
use words::fields;

fn one(out: &mut [u32], from: usize, word: u32) -> usize
    requires { from ≤ length out.old }
    ensures { Filled out.old from (word ∷ []) out.new result }
{
    if out.len() <= from {
        return from;
    }
    out[from] = word;
    from + 1
}

// A word of a copy's terms: a variable is written as what it is bound to.
#[cycle(put_terms_put_word)]
fn put_word(file: &[u32], work: &[u32], at: u32, word: u32, out: &mut [u32], from: usize) -> usize
    requires { Good file.now work.now × Points file.now work.now at 1 × (word ≡ word_at file.now work.now at) × (from ≤ length out.old) }
    ensures { Filled out.old from (named (word_items (resolved file.now work.now) (at / 256) word)) out.new result }
{
    if out.len() <= from {
        return from;
    }
    if fields::kind(word) != 0 {
        return one(out, from, word);
    }
    let r = terms::follow(file, work, at);
    let met = memory::word_at(file, work, r);
    if fields::kind(met) == 0 {
        return one(out, from, memory::variable_at(r, met));
    }
    let headed = one(out, from, met);
    put_terms(file, work, r + 1, fields::arity(met), out, headed)
}

// So many terms from a reference on.
#[cycle(put_terms_put_word)]
fn put_terms(
    file: &[u32],
    work: &[u32],
    reference: u32,
    count: u32,
    out: &mut [u32],
    from: usize,
) -> usize
    requires { Good file.now work.now × Ahead file.now work.now reference count × (from ≤ length out.old) }
    ensures { Filled out.old from (named (term_items file.now work.now reference count)) out.new result }
{
    let mut at = reference;
    let mut to = from;
    let mut owed = count;
    while owed != 0 {
        if out.len() <= to {
            return to;
        }
        let word = memory::word_at(file, work, at);
        to = put_word(file, work, at, word, out, to);
        owed = terms::owed_after(owed, word);
        at += 1;
    }
    to
}

// A literal: its own word, then its arguments.
pub(crate) fn literal(file: &[u32], work: &[u32], reference: u32, out: &mut [u32]) -> usize
    requires { Good file.now work.now × LiteralStands file.now work.now reference }
    ensures { Filled out.old 0 (words_under (resolved file.now work.now) (some (literal_at_reference file.now work.now reference))) out.new result }
{
    let word = memory::word_at(file, work, reference);
    let begun = one(out, 0, word);
    put_terms(file, work, reference + 1, fields::arity(word), out, begun)
}
