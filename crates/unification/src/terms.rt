// Terms in the file, by reference.
ghost use Rattle.std.specs.Prelude.{◌≡◌, ℕ, ◌+◌, ◌-◌, ◌≤◌, ◌<◌};
ghost use Rattle.words.specs.Fields.{kind_of};
ghost use Rattle.unification.specs.State.{Points};
ghost use Rattle.unification.specs.Good.{Good, FollowedTo, Passed, arguments_of};

use crate::memory;
use words::fields;

// A term's variable followed through what is bound: a free variable, or a function or constant.
pub fn follow(file: &[u32], work: &[u32], reference: u32) -> u32
    requires { Good file.now work.now × Points file.now work.now reference 1 }
    ensures { FollowedTo file.now work.now reference result }
{
    let mut at = reference;
    loop {
        let word = memory::word_at(file, work, at);
        if fields::kind(word) != 0 {
            return at;
        }
        let bound = work[memory::BOUND + fields::wide(memory::variable_at(at, word))];
        if bound == 0 {
            return at;
        }
        at = bound - 1;
    }
}

// How many terms are owed after a word of one of them.
#[tactic(auto, using(crate::proofs::Walk::owed_arguments, crate::proofs::Walk::owed_none))]
pub fn owed_after(owed: u32, word: u32) -> u32
    requires { (0 < owed) × (owed ≤ 256) }
    ensures { result ≡ owed - 1 + arguments_of (kind_of word) word }
{
    if fields::kind(word) == 1 {
        return owed - 1 + fields::arity(word);
    }
    owed - 1
}

// The reference just after a term.
pub fn after(file: &[u32], work: &[u32], reference: u32) -> u32
    requires { Good file.now work.now × Points file.now work.now reference 1 }
    ensures { Passed file.now work.now reference result }
{
    let mut at = reference;
    let mut owed: u32 = 1;
    // No index loop: it ends when nothing is owed, at a place not known before.
    while owed != 0 {
        owed = owed_after(owed, memory::word_at(file, work, at));
        at += 1;
    }
    at
}
