// The leaves of a tableau, noted in the work words, and the steps on them.
ghost use Rattle.std.specs.Prelude.{cond, ◌≡◌, ℕ, ◌+◌, ◌*◌, ◌-◌, ◌≤◌, ◌<◌, eqb, length, drop, get_or, set};
ghost use Rattle.words.specs.Fields.{literals_of};
ghost use Rattle.unification.specs.Places.{most_leaves, step_places, work_words, most_copies};
ghost use Rattle.unification.specs.State.{copies_of, literal_at, parent_at, next_at, own_words, ClauseAt};
ghost use Rattle.tableaux.specs.Leaves.{hangs, hanging, noted, hung};
ghost use Rattle.tableaux.specs.Ready.{Ready, NotesKept, Begun, Reducible, Reduced, Openable, Extensible, Extended, Restarted, opened, hanging_at, head_after, hung_under, place_under};

use unification::unify::Unmet;
use unification::{memory, unify};
use words::fields;

// The leftmost open leaf and one, 0 where none is open, as the work words hold heads; the leaves noted, and the steps taken.
#[derive(Clone, Copy)]
pub struct Place {
    pub head: u32,
    pub leaves: u32,
    pub steps: u32,
}

#[tactic(auto, unfolding(crate::specs::Leaves::noted))]
fn note(work: &mut [u32], leaf: u32, literal: u32, parent: u32, next: u32)
    requires { (length work.old ≡ work_words) × (leaf < most_leaves) }
    ensures { work.new ≡ noted work.old leaf literal parent next }
{
    let at = fields::wide(leaf);
    work[memory::LITERAL + at] = literal;
    work[memory::PARENT + at] = parent;
    work[memory::NEXT + at] = next;
}

// Whether a word's literal hangs as a leaf: it is not the one entered.
#[tactic(auto, unfolding(crate::specs::Leaves::hangs))]
pub fn hangs(word: u32, offset: u32, entered: u32) -> bool
    ensures { result ≡ hangs entered offset word }
{
    fields::kind(word) == 2 && offset != entered
}

// The head after a leaf that has so many hung leaves right of it.
fn next_of(left: u32, rest: u32, leaves: u32) -> u32
    requires { (left < most_leaves) × (leaves < most_leaves) }
    ensures { result ≡ cond (eqb left 0) rest (leaves + left) }
{
    if left == 0 {
        return rest;
    }
    leaves + left
}

// The literals of a copy of the clause at a position, but for the one entered, as open leaves left of the others.
fn hang(
    file: &[u32],
    work: &mut [u32],
    start: u32,
    copy: u32,
    entered: u32,
    count: u32,
    parent: u32,
    rest: u32,
    leaves: u32,
)
    requires work_len { (length work.old ≡ work_words) × (copy < most_copies) × (leaves + count ≤ most_leaves) }
    requires count_value { count ≡ length (hanging entered 1 (drop 1 (own_words file.now start))) }
    ensures { work.new ≡ hung copy parent rest leaves (hanging entered 1 (drop 1 (own_words file.now start))) work.old }
{
    let mut offset: u32 = 1;
    let mut left = count;
    // No index loop: it ends when so many literals hang, at an offset not known before.
    while left != 0 {
        let word = file[fields::wide(start) + fields::wide(offset)];
        let here = offset;
        offset += 1;
        if !hangs(word, here, entered) {
            continue;
        }
        left -= 1;
        note(
            work,
            leaves + left,
            copy * 256 + here,
            parent,
            next_of(left, rest, leaves),
        );
    }
}

// The reference of the literal of a leaf, its parent, and the next open leaf right of it, by the leaf's head.
pub fn literal_of(work: &[u32], head: u32) -> u32
    requires { (length work.now ≡ work_words) × (0 < head) × (head ≤ most_leaves) }
    ensures { result ≡ literal_at work.now (head - 1) }
{
    work[memory::LITERAL + fields::wide(head - 1)]
}

pub fn parent_of(work: &[u32], head: u32) -> u32
    requires { (length work.now ≡ work_words) × (0 < head) × (head ≤ most_leaves) }
    ensures { result ≡ parent_at work.now (head - 1) }
{
    work[memory::PARENT + fields::wide(head - 1)]
}

pub fn right_of(work: &[u32], head: u32) -> u32
    requires { (length work.now ≡ work_words) × (0 < head) × (head ≤ most_leaves) }
    ensures { result ≡ next_at work.now (head - 1) }
{
    work[memory::NEXT + fields::wide(head - 1)]
}

fn note_step(work: &mut [u32], steps: u32, step: u32)
    requires { (length work.old ≡ work_words) × (steps < most_leaves) }
    ensures { work.new ≡ set work.old (step_places + steps) step }
{
    work[memory::STEPS + fields::wide(steps)] = step;
}

// How many literals the clause at a position has.
fn literals_at(file: &[u32], start: u32) -> u32
    requires { start < length file.now }
    ensures { result ≡ literals_of (get_or file.now start 0) }
{
    fields::literals(file[fields::wide(start)])
}

// The start: a copy of the question, its literals the open leaves. Leaves and steps are written before they are read, and not cleared.
pub fn begin(file: &[u32], work: &mut [u32], question: u32) -> Place
    requires { (length work.old ≡ work_words) × ClauseAt file.now question }
    ensures { Begun file.now work.new question result × NotesKept work.old work.new }
{
    memory::clear(work, 0, memory::LITERAL);
    memory::clear(work, memory::NUMBERS, memory::USED - memory::NUMBERS);
    work[memory::STARTS] = question;
    work[memory::COPIES] = 1;
    let count = literals_at(file, question);
    hang(file, work, question, 0, 0, count, 0, 0, 0);
    Place {
        head: count,
        leaves: count,
        steps: 0,
    }
}

// The leftmost leaf is closed against an ancestor's literal.
pub fn reduce(
    file: &[u32],
    work: &mut [u32],
    place: Place,
    ancestor: u32,
    step: u32,
) -> Result<Place, Unmet>
    requires { Reducible file.now work.old place ancestor }
    ensures { Reduced file.now work.old work.new place ancestor step result }
{
    let literal = literal_of(work, place.head);
    let rest = right_of(work, place.head);
    note_step(work, place.steps, step);
    unify::meet_atoms(file, work, literal, ancestor)?;
    Ok(Place {
        head: rest,
        leaves: place.leaves,
        steps: place.steps + 1,
    })
}

// One more copy, and the step that makes it.
fn open_copy(work: &mut [u32], start: u32, steps: u32, step: u32) -> u32
    requires { (length work.old ≡ work_words) × (copies_of work.old < most_copies) × (steps < most_leaves) }
    ensures { (result ≡ copies_of work.old) × (work.new ≡ opened work.old start steps step) }
{
    let copy = work[memory::COPIES];
    note_step(work, steps, step);
    work[memory::STARTS + fields::wide(copy)] = start;
    work[memory::COPIES] = copy + 1;
    copy
}

// So many literals of a copy, all but the one entered, hang under the leftmost leaf.
fn hang_under(
    file: &[u32],
    work: &mut [u32],
    place: Place,
    start: u32,
    copy: u32,
    offset: u32,
    count: u32,
) -> Place
    requires work_len { (length work.old ≡ work_words) × (copy < most_copies) × (0 < place.head) × (place.head ≤ place.leaves) × (place.leaves < most_leaves) × (place.leaves + count ≤ most_leaves) × (place.steps < most_leaves) }
    requires count_value { count ≡ length (hanging_at file.now start offset) }
    ensures { (result ≡ place_under file.now work.old place start offset) × (work.new ≡ hung_under file.now work.old place start copy offset) }
{
    let head = place.head;
    let leaves = place.leaves;
    let rest = right_of(work, head);
    hang(file, work, start, copy, offset, count, head, rest, leaves);
    Place {
        head: next_of(count, rest, leaves),
        leaves: leaves + count,
        steps: place.steps + 1,
    }
}

// A copy of the clause at a position hangs under the leftmost leaf, entered at the literal of an offset.
pub fn extend(
    file: &[u32],
    work: &mut [u32],
    place: Place,
    start: u32,
    offset: u32,
    step: u32,
) -> Result<Place, Unmet>
    requires { Extensible file.now work.old place start offset }
    ensures { Extended file.now work.old work.new place start offset step result }
{
    let copy = open_copy(work, start, place.steps, step);
    let literal = literal_of(work, place.head);
    unify::meet_entered(file, work, literal, copy * 256 + offset)?;
    let others = literals_at(file, start) - 1;
    Ok(hang_under(file, work, place, start, copy, offset, others))
}

// A copy of the question hangs under the leftmost leaf, all its literals open.
pub fn restart(file: &[u32], work: &mut [u32], place: Place, question: u32, step: u32) -> Place
    requires { Openable file.now work.old place question }
    ensures { Restarted file.now work.old work.new place question step result }
{
    let copy = open_copy(work, question, place.steps, step);
    let count = literals_at(file, question);
    hang_under(file, work, place, question, copy, 0, count)
}
