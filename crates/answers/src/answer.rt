// The answer: counted up to its buffer before anything is written.
ghost use Rattle.std.specs.Prelude.{◌≡◌, List, [], ◌∷◌, ℕ, ◌/◌, min, ◌≤◌, ◌<◌, length};
ghost use Rattle.unification.specs.Places.{most_variables, work_words};
ghost use Rattle.unification.specs.State.{copies_of, variable_of};
ghost use Rattle.unification.specs.Good.{Good, Ahead};
ghost use Rattle.answers.specs.Writing.{fixed, free, word_items, term_items, copy_items, resolved, answer_held};
ghost use Rattle.answers.specs.Writing.{Counted, WordStands, RoomFor, Wrote, Unmarked, Answered};

use unification::{memory, terms};
use words::fields;

// How much of the answer is written, and how many variables are numbered.
#[derive(Clone, Copy)]
pub struct Written {
    pub words: usize,
    pub numbered: u32,
}

// The words and disjuncts of an answer.
#[derive(Clone, Copy)]
pub struct Answer {
    pub words: u32,
    pub disjuncts: u32,
}

// The room left after a word of a copy's literals: a variable stands for what it is bound to.
#[cycle(room_after_terms_room_after_word)]
fn room_after_word(file: &[u32], work: &[u32], at: u32, word: u32, room: usize) -> Option<usize>
    requires { Good file.now work.now × WordStands file.now work.now at word }
    ensures { Counted room (length (word_items (resolved file.now work.now) (at / 256) word)) result }
{
    let left = room.checked_sub(1)?;
    if fields::kind(word) != 0 {
        return Some(left);
    }
    let r = terms::follow(file, work, at);
    let met = memory::word_at(file, work, r);
    if fields::kind(met) == 0 {
        return Some(left);
    }
    room_after_terms(file, work, r + 1, fields::arity(met), left)
}

// The room left after so many terms from a reference on.
#[cycle(room_after_terms_room_after_word)]
fn room_after_terms(
    file: &[u32],
    work: &[u32],
    reference: u32,
    count: u32,
    room: usize,
) -> Option<usize>
    requires { Good file.now work.now × Ahead file.now work.now reference count }
    ensures { Counted room (length (term_items file.now work.now reference count)) result }
{
    let mut at = reference;
    let mut left = room;
    let mut owed = count;
    while owed != 0 {
        let word = memory::word_at(file, work, at);
        left = room_after_word(file, work, at, word, left)?;
        owed = terms::owed_after(owed, word);
        at += 1;
    }
    Some(left)
}

// The room left after a copy.
fn room_after_copy(file: &[u32], work: &[u32], copy: u32, room: usize) -> Option<usize>
    requires { Good file.now work.now × (copy < copies_of work.now) }
    ensures { Counted room (length (copy_items file.now work.now copy)) result }
{
    let own = copy * 256;
    let count = fields::following(memory::word_at(file, work, own));
    let mut left = room;
    for offset in 1..count + 1 {
        let at = own + offset;
        let word = memory::word_at(file, work, at);
        left = room_after_word(file, work, at, word, left)?;
    }
    Some(left)
}

// The room left after the answer.
pub fn room_after(file: &[u32], work: &[u32], room: usize) -> Option<usize>
    requires { Good file.now work.now }
    ensures { Counted room (length (answer_held file.now work.now)) result }
{
    let mut left = room;
    for copy in 0..work[memory::COPIES] {
        if work[memory::KEPT + fields::wide(copy)] == 0 {
            continue;
        }
        left = room_after_copy(file, work, copy, left)?;
    }
    Some(left)
}

// One word more.
fn put(answer: &mut [u32], word: u32, begun: Written) -> Written
    requires { RoomFor answer.old begun (fixed word ∷ []) }
    ensures { (m : List ℕ) → Wrote m answer.old begun (fixed word ∷ []) m answer.new result }
{
    let words = begun.words;
    answer[words] = word;
    Written {
        words: words + 1,
        numbered: begun.numbered,
    }
}

// A free variable: the number that it has, or the next.
fn write_variable(work: &mut [u32], answer: &mut [u32], variable: u32, begun: Written) -> Written
    requires { (length work.old ≡ work_words) × (variable < most_variables) × RoomFor answer.old begun (free (variable_of variable) ∷ []) }
    ensures { Wrote work.old answer.old begun (free (variable_of variable) ∷ []) work.new answer.new result }
{
    let words = begun.words;
    let numbered = begun.numbered;
    let place = memory::NUMBERS + fields::wide(variable);
    let known = work[place];
    if known != 0 {
        answer[words] = known - 1;
        return Written {
            words: words + 1,
            numbered,
        };
    }
    work[place] = numbered + 1;
    answer[words] = numbered;
    Written {
        words: words + 1,
        numbered: numbered + 1,
    }
}

// A word of a copy's literals: a variable is written as what it is bound to, a literal without its sign.
#[cycle(write_terms_write_word)]
fn write_word(
    file: &[u32],
    work: &mut [u32],
    answer: &mut [u32],
    at: u32,
    word: u32,
    begun: Written,
) -> Written
    requires { Good file.now work.old × WordStands file.now work.old at word × RoomFor answer.old begun (word_items (resolved file.now work.old) (at / 256) word) }
    ensures { Wrote work.old answer.old begun (word_items (resolved file.now work.old) (at / 256) word) work.new answer.new result }
{
    if fields::kind(word) != 0 {
        return put(answer, word - fields::sign(word) * 0x8000, begun);
    }
    let r = terms::follow(file, work, at);
    let met = memory::word_at(file, work, r);
    if fields::kind(met) == 0 {
        return write_variable(work, answer, memory::variable_at(r, met), begun);
    }
    let headed = put(answer, met, begun);
    write_terms(file, work, answer, r + 1, fields::arity(met), headed)
}

// So many terms from a reference on.
#[cycle(write_terms_write_word)]
fn write_terms(
    file: &[u32],
    work: &mut [u32],
    answer: &mut [u32],
    reference: u32,
    count: u32,
    begun: Written,
) -> Written
    requires { Good file.now work.old × Ahead file.now work.old reference count × RoomFor answer.old begun (term_items file.now work.old reference count) }
    ensures { Wrote work.old answer.old begun (term_items file.now work.old reference count) work.new answer.new result }
{
    let mut at = reference;
    let mut written = begun;
    let mut owed = count;
    while owed != 0 {
        let word = memory::word_at(file, work, at);
        written = write_word(file, work, answer, at, word, written);
        owed = terms::owed_after(owed, word);
        at += 1;
    }
    written
}

// The words of a copy.
fn write_copy(
    file: &[u32],
    work: &mut [u32],
    answer: &mut [u32],
    copy: u32,
    begun: Written,
) -> Written
    requires { Good file.now work.old × (copy < copies_of work.old) × RoomFor answer.old begun (copy_items file.now work.old copy) }
    ensures { Wrote work.old answer.old begun (copy_items file.now work.old copy) work.new answer.new result }
{
    let own = copy * 256;
    let count = fields::following(memory::word_at(file, work, own));
    let mut written = begun;
    for offset in 1..count + 1 {
        let at = own + offset;
        let word = memory::word_at(file, work, at);
        written = write_word(file, work, answer, at, word, written);
    }
    written
}

// The answer, for which there is room: one disjunct for each copy that is kept, in order.
pub fn write(file: &[u32], work: &mut [u32], answer: &mut [u32]) -> Answer
    requires good { Good file.now work.old × Unmarked work.old }
    requires work_in_bounds { (length (answer_held file.now work.old) ≤ length answer.old) × (length (answer_held file.now work.old) ≤ 4294967295) }
    ensures { Answered file.now work.old answer.old work.new answer.new result }
{
    let mut written = Written {
        words: 0,
        numbered: 0,
    };
    let mut disjuncts: u32 = 0;
    for copy in 0..work[memory::COPIES] {
        if work[memory::KEPT + fields::wide(copy)] == 0 {
            continue;
        }
        written = write_copy(file, work, answer, copy, written);
        disjuncts += 1;
    }
    let words = written.words;
    Answer {
        words: words as u32,
        disjuncts,
    }
}
