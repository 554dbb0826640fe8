// The literals with one word, linked in order. Of each word the last literal is found by its key, and knows the first.
ghost use Rattle.std.specs.Prelude.{◌≡◌, ℕ, ◌+◌, ◌*◌, ◌/◌, ◌%◌, ◌<◌, length, drop, get_or};
ghost use Rattle.words.specs.Fields.{number_of};
ghost use Rattle.unification.specs.Places.{work_words};
ghost use Rattle.index.specs.Places.{most_noted};
ghost use Rattle.index.specs.Noting.{keys_in, note_at, link_at, first_from, last_from, numbered, Indexed, Linked, word_begun, word_joined};

use crate::places;
use unification::memory;
use words::fields;

// The word of a literal.
fn word_of(file: &[u32], work: &[u32], literal: u32) -> u32
    requires { (length work.now ≡ work_words) × (literal < most_noted) × (note_at work.now literal % 16384 < length file.now) }
    ensures { result ≡ get_or file.now (note_at work.now literal % 16384) 0 }
{
    file[fields::wide(work[places::NOTES + 3 * fields::wide(literal)] % 0x4000)]
}

// The last literal with a word.
fn last_with(file: &[u32], work: &[u32], word: u32) -> Option<u32>
    requires { (body : ℕ) × (from : ℕ) × Linked file.now body work.now from }
    ensures { (body from : ℕ) → Linked file.now body work.now from → result ≡ numbered (last_from word from (drop from (keys_in file.now body))) }
{
    let mut last = work[places::HEADS + fields::wide(fields::number(word))];
    while last != 0 {
        let literal = last - 1;
        if word_of(file, work, literal) == word {
            return Some(literal);
        }
        last = work[places::NOTES + 3 * fields::wide(literal) + 2];
    }
    None
}

// A literal whose word no later one has.
fn begin_word(work: &mut [u32], literal: u32, word: u32)
    requires { (length work.old ≡ work_words) × (literal < most_noted) }
    ensures { work.new ≡ word_begun work.old literal (number_of word) }
{
    let note = places::NOTES + 3 * fields::wide(literal);
    let head = places::HEADS + fields::wide(fields::number(word));
    let next = work[head];
    work[note + 1] = 0x1000 * (literal + 1);
    work[note + 2] = next;
    work[head] = literal + 1;
}

// A literal whose word later ones have, the last of them being known.
fn join_word(work: &mut [u32], literal: u32, word: u32, last: u32)
    requires { (length work.old ≡ work_words) × (literal < last) × (last < most_noted) }
    ensures { work.new ≡ word_joined work.old literal (number_of word) last }
{
    let note = places::NOTES + 3 * fields::wide(literal);
    let end = places::NOTES + 3 * fields::wide(last) + 1;
    let first = work[end] / 0x1000;
    let next = work[places::HEADS + fields::wide(fields::number(word))];
    work[note + 1] = first;
    work[note + 2] = next;
    work[end] = 0x1000 * (literal + 1);
}

fn link_literal(file: &[u32], work: &mut [u32], literal: u32)
    requires { (body : ℕ) × Linked file.now body work.old (literal + 1) × (literal < length (keys_in file.now body)) }
    ensures { (body : ℕ) → Linked file.now body work.old (literal + 1) → literal < length (keys_in file.now body) → Linked file.now body work.new literal }
{
    let word = word_of(file, work, literal);
    match last_with(file, work, word) {
        Some(last) => join_word(work, literal, word, last),
        None => begin_word(work, literal, word),
    }
}

// The noted literals, linked from the last to the first.
pub fn link(file: &[u32], work: &mut [u32])
    requires { (body : ℕ) × Indexed file.now body work.old }
    ensures { (body : ℕ) → Indexed file.now body work.old → Linked file.now body work.new 0 }
{
    memory::clear(work, places::HEADS, places::KEYS);
    for literal in (0..work[places::NOTED]).rev() {
        link_literal(file, work, literal);
    }
}

// The first literal with a word, and one; 0 where there is none.
pub fn first(file: &[u32], work: &[u32], word: u32) -> u32
    requires { (body : ℕ) × Linked file.now body work.now 0 }
    ensures { (body : ℕ) → Linked file.now body work.now 0 → result ≡ first_from word 0 (keys_in file.now body) }
{
    let Some(last) = last_with(file, work, word) else {
        return 0;
    };
    work[places::NOTES + 3 * fields::wide(last) + 1] / 0x1000
}

// The next literal with the word of a literal, and one; 0 where there is none.
pub fn next(work: &[u32], literal: u32) -> u32
    requires { (length work.now ≡ work_words) × (literal < most_noted) }
    ensures { result ≡ link_at work.now literal }
{
    work[places::NOTES + 3 * fields::wide(literal) + 1] % 0x1000
}
