// Two atoms made equal under what is bound.
ghost use Rattle.std.specs.Prelude.{true, ◌≡◌, List, ℕ, ◌+◌, ◌≤◌, ◌<◌, length, set};
ghost use Rattle.words.specs.Fields.{kind_of};
ghost use Rattle.rules.specs.Tableau.{atom};
ghost use Rattle.rules.specs.Machinery.Unify.{solution, bind, unify};
ghost use Rattle.unification.specs.Places.{most_variables, most_references, mark_places, work_words};
ghost use Rattle.unification.specs.State.{Points, term_of, literal_at_reference, bound_at, count_of, variable_of, bindings_in};
ghost use Rattle.unification.specs.Good.{Good, Ahead, Alike, Binds, Met, Undone, word_at, variable_at, names_variable, occurs_in, occurs_under, variables_here};
ghost use Rattle.unification.specs.Thorough.{spare_of, link_at, mark_at, Down, Rooted, Valued, Spent, Quiet, Checking, Other, Looked, Meets, Applied, pairs_met, Began, Remaining, Apart};

use crate::{memory, terms};
use words::fields;

// Why two terms are not made equal: two symbols differ, or a variable would hold itself.
#[derive(Clone, Copy)]
pub enum Unmet {
    Clash,
    Circle,
}

// What a comparison notes for itself. Its first word is how many more terms it may look into. Where that is all, it gives up when none is left,
// and the comparison starts over with notes of full length, thoroughly: then variables lead it into no pair of terms twice, and, for one binding, it looks into no variable twice.
const BRIEF: u32 = 1024;

const FULL: usize = 8977;
// By reference: 0, or one more than a lower reference of an equal term.
const LINKS: usize = 1;
// By variable: 0, or one more than the variable that was last looked for in it, in vain.
const MARKS: usize = 8449;

// One term fewer may be looked into. Whether none is left.
#[tactic(auto, using(crate::proofs::Thorough::spend_thorough, crate::proofs::Thorough::spend_one))]
fn spend(notes: &mut [u32]) -> bool
    requires { 0 < spare_of notes.old }
    ensures { Spent notes.old notes.new result }
{
    if notes.len() != 1 {
        return false;
    }
    let spare = notes[0] - 1;
    notes[0] = spare;
    spare == 0
}

// The lowest of the terms that are noted to be equal to a term.
fn root(notes: &[u32], reference: u32) -> u32
    requires { (reference < most_references) × Down notes.now }
    ensures { Rooted notes.now reference result }
{
    let mut at = reference;
    while LINKS + fields::wide(at) < notes.len() {
        let link = notes[LINKS + fields::wide(at)];
        if link == 0 {
            return at;
        }
        at = link - 1;
    }
    at
}

// A term is equal to one at a lower reference.
fn link(notes: &mut [u32], from: u32, to: u32)
    requires { (from < most_references) × (to < from) }
    ensures { notes.new ≡ set notes.old (1 + from) (to + 1) }
{
    let at = LINKS + fields::wide(from);
    if at < notes.len() {
        notes[at] = to + 1;
    }
}

// Whether a variable was looked for in another, in vain.
fn marked(notes: &[u32], met: u32, variable: u32) -> bool
    requires { (met < most_variables) × (variable < most_variables) }
    ensures { result ≡ true → mark_at notes.now met ≡ variable + 1 }
{
    let at = MARKS + fields::wide(met);
    at < notes.len() && notes[at] == variable + 1
}

fn mark(notes: &mut [u32], met: u32, variable: u32)
    requires { (met < most_variables) × (variable < most_variables) }
    ensures { notes.new ≡ set notes.old (mark_places + met) (variable + 1) }
{
    let at = MARKS + fields::wide(met);
    if at < notes.len() {
        notes[at] = variable + 1;
    }
}

// Whether a free variable occurs in a term under what is bound.
#[cycle(occurs_occurs_at_occurs_through)]
fn occurs(file: &[u32], work: &[u32], notes: &mut [u32], variable: u32, reference: u32) -> bool
    requires { Good file.now work.now × Checking file.now work.now notes.old variable × Points file.now work.now reference 1 }
    ensures { Looked file.now work.now notes.old notes.new variable result (occurs_under file.now work.now variable (term_of file.now work.now reference)) }
{
    let mut at = reference;
    let mut owed: u32 = 1;
    // No index loop: it ends when nothing is owed, at a place not known before.
    while owed != 0 {
        let word = memory::word_at(file, work, at);
        if occurs_at(file, work, notes, variable, at, word) {
            return true;
        }
        owed = terms::owed_after(owed, word);
        at += 1;
    }
    false
}

// Whether it occurs in the variable that stands at a word, if one does.
#[cycle(occurs_occurs_at_occurs_through)]
fn occurs_at(
    file: &[u32],
    work: &[u32],
    notes: &mut [u32],
    variable: u32,
    at: u32,
    word: u32,
) -> bool
    requires { Good file.now work.now × Checking file.now work.now notes.old variable × Points file.now work.now at 1 × (word ≡ word_at file.now work.now at) }
    ensures { Looked file.now work.now notes.old notes.new variable result (occurs_in (variable_of variable) (solution (bindings_in file.now work.now)) (variables_here (kind_of word) at word)) }
{
    if fields::kind(word) != 0 {
        return false;
    }
    let met = memory::variable_at(at, word);
    if met == variable {
        return true;
    }
    let bound = work[memory::BOUND + fields::wide(met)];
    if bound == 0 {
        return false;
    }
    occurs_through(file, work, notes, variable, met, bound - 1)
}

// Whether it occurs in what a variable is bound to.
#[cycle(occurs_occurs_at_occurs_through)]
fn occurs_through(
    file: &[u32],
    work: &[u32],
    notes: &mut [u32],
    variable: u32,
    met: u32,
    value: u32,
) -> bool
    requires { Good file.now work.now × Checking file.now work.now notes.old variable × Valued file.now work.now met value }
    ensures { Looked file.now work.now notes.old notes.new variable result (occurs_under file.now work.now variable (term_of file.now work.now value)) }
{
    if marked(notes, met, variable) {
        return false;
    }
    if spend(notes) {
        return true;
    }
    let end = terms::follow(file, work, value);
    if occurs(file, work, notes, variable, end) {
        return true;
    }
    mark(notes, met, variable);
    false
}

// A free variable is bound to a term that was followed, unless it occurs there.
fn bind(
    file: &[u32],
    work: &mut [u32],
    notes: &mut [u32],
    variable: u32,
    reference: u32,
) -> Result<(), Unmet>
    requires { Good file.now work.old × Quiet file.now work.old notes.old × Binds file.now work.old variable reference × Other file.now work.old variable reference }
    ensures { Meets file.now work.old work.new notes.old notes.new result (bind (bindings_in file.now work.old) (variable_of variable) (term_of file.now work.old reference)) }
{
    // A single word is another free variable, or a constant.
    if terms::owed_after(1, memory::word_at(file, work, reference)) == 0 {
        memory::push(work, variable, reference);
        return Ok(());
    }
    if occurs(file, work, notes, variable, reference) {
        return Err(Unmet::Circle);
    }
    memory::push(work, variable, reference);
    Ok(())
}

// Whether the word at a reference is this variable's.
fn same_variable(reference: u32, word: u32, variable: u32) -> bool
    ensures { result ≡ names_variable (kind_of word) reference word variable }
{
    fields::kind(word) == 0 && memory::variable_at(reference, word) == variable
}

#[cycle(meet_meet_all_meet_applied)]
fn meet(
    file: &[u32],
    work: &mut [u32],
    notes: &mut [u32],
    left: u32,
    right: u32,
) -> Result<(), Unmet>
    requires { Good file.now work.old × Quiet file.now work.old notes.old × Points file.now work.old left 1 × Points file.now work.old right 1 }
    ensures { Meets file.now work.old work.new notes.old notes.new result (unify (bindings_in file.now work.old) (term_of file.now work.old left) (term_of file.now work.old right)) }
{
    let l = terms::follow(file, work, left);
    let r = terms::follow(file, work, right);
    if l == r {
        return Ok(());
    }
    let v = memory::word_at(file, work, l);
    let w = memory::word_at(file, work, r);
    if fields::kind(w) == 0 {
        let y = memory::variable_at(r, w);
        if same_variable(l, v, y) {
            return Ok(());
        }
        return bind(file, work, notes, y, l);
    }
    if fields::kind(v) == 0 {
        return bind(file, work, notes, memory::variable_at(l, v), r);
    }
    if v != w {
        return Err(Unmet::Clash);
    }
    meet_applied(file, work, notes, l, r)
}

// Two applications of one symbol.
#[cycle(meet_meet_all_meet_applied)]
fn meet_applied(
    file: &[u32],
    work: &mut [u32],
    notes: &mut [u32],
    left: u32,
    right: u32,
) -> Result<(), Unmet>
    requires { Good file.now work.old × Quiet file.now work.old notes.old × Applied file.now work.old left right }
    ensures { Meets file.now work.old work.new notes.old notes.new result (unify (bindings_in file.now work.old) (term_of file.now work.old left) (term_of file.now work.old right)) }
{
    let l = root(notes, left);
    let r = root(notes, right);
    if l == r {
        return Ok(());
    }
    if spend(notes) {
        return Err(Unmet::Clash);
    }
    let count = fields::arity(memory::word_at(file, work, left));
    meet_all(file, work, notes, left + 1, right + 1, count)?;
    if l < r {
        link(notes, r, l);
        return Ok(());
    }
    link(notes, l, r);
    Ok(())
}

// Whether two words are the same, a function's or a constant's.
fn same_function(word: u32, other: u32) -> bool
    ensures { result ≡ true → (kind_of word ≡ 1) × (word ≡ other) }
{
    fields::kind(word) == 1 && word == other
}

// So many pairs of terms from two references on, from left to right. In place of two applications of one symbol stand their arguments.
#[cycle(meet_meet_all_meet_applied)]
fn meet_all(
    file: &[u32],
    work: &mut [u32],
    notes: &mut [u32],
    left: u32,
    right: u32,
    count: u32,
) -> Result<(), Unmet>
    requires { Good file.now work.old × Quiet file.now work.old notes.old × Ahead file.now work.old left count × Ahead file.now work.old right count }
    ensures { Meets file.now work.old work.new notes.old notes.new result (pairs_met file.now work.old left right count) }
{
    let mut l = left;
    let mut r = right;
    let mut more = count;
    while more != 0 {
        let word = memory::word_at(file, work, l);
        if same_function(word, memory::word_at(file, work, r)) {
            more = terms::owed_after(more, word);
            l += 1;
            r += 1;
            continue;
        }
        meet(file, work, notes, l, r)?;
        more -= 1;
        if more == 0 {
            return Ok(());
        }
        l = terms::after(file, work, l);
        r = terms::after(file, work, r);
    }
    Ok(())
}

// The atoms of two literals, thoroughly, after a comparison that gave up was taken back.
fn meet_thoroughly(
    file: &[u32],
    work: &mut [u32],
    kept: u32,
    leaf: u32,
    other: u32,
) -> Result<(), Unmet>
    requires { (m : List ℕ) × Began file.now m work.old kept leaf other }
    ensures { (m : List ℕ) → Began file.now m work.old kept leaf other → Met file.now m work.new result (unify (bindings_in file.now m) (atom (literal_at_reference file.now m leaf)) (atom (literal_at_reference file.now m other))) }
{
    undo(work, kept);
    let mut notes = [0u32; FULL];
    notes[0] = 1;
    let count = fields::arity(memory::word_at(file, work, leaf));
    let met = meet_all(file, work, &mut notes, leaf + 1, other + 1, count);
    // This is never so. It is here because a function that calls itself is not inlined: its frame holds the notes, and the callers' frames stay small.
    if notes[0] == 0 {
        return meet_thoroughly(file, work, kept, leaf, other);
    }
    met
}

// The pairs that are left of two literals, since a moment when so many variables were bound.
fn meet_rest(
    file: &[u32],
    work: &mut [u32],
    kept: u32,
    leaf: u32,
    other: u32,
    left: u32,
    right: u32,
    count: u32,
) -> Result<(), Unmet>
    requires { (m : List ℕ) × Remaining file.now m work.old kept leaf other left right count }
    ensures { (m : List ℕ) → Remaining file.now m work.old kept leaf other left right count → Met file.now m work.new result (unify (bindings_in file.now m) (atom (literal_at_reference file.now m leaf)) (atom (literal_at_reference file.now m other))) }
{
    let mut notes = [BRIEF; 1];
    let met = meet_all(file, work, &mut notes, left, right, count);
    if notes[0] != 0 {
        return met;
    }
    meet_thoroughly(file, work, kept, leaf, other)
}

// The atoms of two literals of one predicate and arity.
pub fn meet_atoms(file: &[u32], work: &mut [u32], leaf: u32, other: u32) -> Result<(), Unmet>
    requires { Good file.now work.old × Alike file.now work.old leaf other }
    ensures { Met file.now work.old work.new result (unify (bindings_in file.now work.old) (atom (literal_at_reference file.now work.old leaf)) (atom (literal_at_reference file.now work.old other))) }
{
    let kept = work[memory::COUNT];
    let count = fields::arity(memory::word_at(file, work, leaf));
    meet_rest(file, work, kept, leaf, other, leaf + 1, other + 1, count)
}

// Whether a free variable stands at a word.
fn is_free(work: &[u32], reference: u32, word: u32) -> bool
    requires { (length work.now ≡ work_words) × (kind_of word ≡ 0 → variable_at reference word < most_variables) }
    ensures { result ≡ true → (kind_of word ≡ 0) × (bound_at work.now (variable_at reference word) ≡ 0) }
{
    fields::kind(word) == 0
        && work[memory::BOUND + fields::wide(memory::variable_at(reference, word))] == 0
}

// The atoms of a leaf and of the literal by which the newest copy was entered. As long as none but the copy's own variables are bound,
// no older term leads to one of them, and so they are not looked for there.
pub fn meet_entered(file: &[u32], work: &mut [u32], leaf: u32, entered: u32) -> Result<(), Unmet>
    requires { Good file.now work.old × Alike file.now work.old leaf entered × Apart file.now work.old leaf entered }
    ensures { Met file.now work.old work.new result (unify (bindings_in file.now work.old) (atom (literal_at_reference file.now work.old leaf)) (atom (literal_at_reference file.now work.old entered))) }
{
    let kept = work[memory::COUNT];
    let mut l = leaf + 1;
    let mut r = entered + 1;
    let mut more = fields::arity(memory::word_at(file, work, leaf));
    while more != 0 {
        let word = memory::word_at(file, work, l);
        let other = memory::word_at(file, work, r);
        if same_function(word, other) {
            more = terms::owed_after(more, word);
            l += 1;
            r += 1;
            continue;
        }
        if !is_free(work, r, other) {
            return meet_rest(file, work, kept, leaf, entered, l, r, more);
        }
        let value = terms::follow(file, work, l);
        memory::push(work, memory::variable_at(r, other), value);
        more -= 1;
        if more == 0 {
            return Ok(());
        }
        l = terms::after(file, work, l);
        r += 1;
    }
    Ok(())
}

// The variables bound since a moment are free again.
pub fn undo(work: &mut [u32], kept: u32)
    requires { ((f : List ℕ) × Good f work.old) × (kept ≤ count_of work.old) }
    ensures { (f : List ℕ) → Good f work.old → Undone f work.old work.new kept }
{
    for i in (kept..work[memory::COUNT]).rev() {
        let variable = work[memory::TRAIL + fields::wide(i)];
        work[memory::BOUND + fields::wide(variable)] = 0;
    }
    work[memory::COUNT] = kept;
}
