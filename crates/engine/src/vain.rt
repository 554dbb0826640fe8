// Tries that can lead to nothing, seen before they are made.
ghost use Rattle.std.specs.Prelude.{true, ◌≡◌, ◌+◌, ◌≤◌, ◌<◌, length, get_or};
ghost use Rattle.words.specs.Fields.{kind_of};
ghost use Rattle.unification.specs.Places.{most_leaves};
ghost use Rattle.unification.specs.Good.{Good, LiteralStands};
ghost use Rattle.tableaux.specs.Ready.{Noted, Extensible, hanging_at};
ghost use Rattle.engine.specs.Nowhere.{words_up, among, stuck_at, dead_end, clashing, Opening, Parted};

use index::entries;
use tableaux::tableau;
use tableaux::tableau::Place;
use unification::{memory, terms};
use words::fields;

// Whether a literal with a word stands on a branch, from a leaf up.
#[tactic(auto, using(crate::proofs::Nowhere::Seen::walk_laws))]
fn on_branch(file: &[u32], work: &[u32], head: u32, word: u32) -> bool
    requires { Good file.now work.now × Noted file.now work.now head × (head ≤ most_leaves) }
    ensures { result ≡ among word (words_up file.now work.now head) }
{
    let mut at = head;
    while at != 0 {
        if memory::word_at(file, work, tableau::literal_of(work, at)) == word {
            return true;
        }
        at = tableau::parent_of(work, at);
    }
    false
}

// Whether a leaf is open and no ancestor's literal fits it.
#[tactic(auto, using(crate::proofs::Nowhere::Seen::stuck_laws))]
fn stuck(file: &[u32], work: &[u32], head: u32) -> bool
    requires { Good file.now work.now × Noted file.now work.now head × (head ≤ most_leaves) }
    ensures { result ≡ stuck_at file.now work.now head }
{
    if head == 0 {
        return false;
    }
    let word = memory::word_at(file, work, tableau::literal_of(work, head));
    !on_branch(
        file,
        work,
        tableau::parent_of(work, head),
        entries::other_sign(word),
    )
}

// Where the first literal of a clause stands, the one entered left out.
#[tactic(auto, using(crate::proofs::Nowhere::Seen::seek_laws))]
fn first_other(file: &[u32], start: u32, entered: u32) -> u32
    requires { 0 < length (hanging_at file.now start entered) }
    ensures { result ≡ get_or (hanging_at file.now start entered) 0 0 }
{
    // No index that a range bounds: a literal is met before the clause ends.
    let mut offset: u32 = 1;
    while !tableau::hangs(
        file[fields::wide(start) + fields::wide(offset)],
        offset,
        entered,
    ) {
        offset += 1;
    }
    offset
}

// Whether the leaf that comes first after an extension is closed by no reduction.
#[tactic(auto, using(crate::proofs::Nowhere::Seen::end_laws))]
pub fn dead_end(file: &[u32], work: &[u32], place: Place, start: u32, offset: u32) -> bool
    requires { Extensible file.now work.now place start offset }
    ensures { result ≡ dead_end file.now work.now place start offset }
{
    if fields::literals(file[fields::wide(start)]) == 1 {
        return stuck(file, work, tableau::right_of(work, place.head));
    }
    let other = first_other(file, start, offset);
    let word = file[fields::wide(start) + fields::wide(other)];
    !on_branch(file, work, place.head, entries::other_sign(word))
}

// The word of a literal's first argument, followed through what is bound; 0 where it has none.
#[tactic(auto, using(crate::proofs::Nowhere::Seen::symbol_laws))]
pub fn first_symbol(file: &[u32], work: &[u32], literal: u32) -> u32
    requires { Good file.now work.now × LiteralStands file.now work.now literal }
    ensures { Opening file.now work.now literal result }
{
    if fields::arity(memory::word_at(file, work, literal)) == 0 {
        return 0;
    }
    memory::word_at(file, work, terms::follow(file, work, literal + 1))
}

// Whether the first argument of the literal at a position begins with another function or constant.
#[tactic(auto, using(crate::proofs::Nowhere::Seen::clash_laws))]
pub fn clashes(file: &[u32], at: u32, symbol: u32) -> bool
    requires { kind_of symbol ≡ 1 → at + 1 < length file.now }
    ensures { result ≡ clashing symbol (get_or file.now (at + 1) 0) }
{
    if fields::kind(symbol) != 1 {
        return false;
    }
    let word = file[fields::wide(at) + 1];
    fields::kind(word) == 1 && word != symbol
}

// Whether the first arguments of two literals, followed through what is bound, begin with different functions or constants.
pub fn heads_differ(file: &[u32], work: &[u32], leaf: u32, literal: u32) -> bool
    requires { Good file.now work.now × LiteralStands file.now work.now leaf × LiteralStands file.now work.now literal }
    ensures { result ≡ true → Parted file.now work.now leaf literal }
{
    let symbol = first_symbol(file, work, leaf);
    if fields::kind(symbol) != 1 {
        return false;
    }
    let other = first_symbol(file, work, literal);
    fields::kind(other) == 1 && other != symbol
}
