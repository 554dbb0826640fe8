// The checker: an offered proof, step by step.
ghost use Rattle.std.specs.Prelude.{false, ◌≡◌, ℕ, ◌-◌, ◌≤◌, ◌<◌, length};
ghost use Rattle.std.proofs.Math.ListN.{get_elem?};
ghost use Rattle.table.specs.File.{judge};
ghost use Rattle.unification.specs.Places.{most_leaves, work_words};
ghost use Rattle.unification.specs.Good.{word_at};
ghost use Rattle.tableaux.specs.Ready.{Ready, leaf_of};
ghost use Rattle.index.specs.Scanning.{other_sign};
ghost use Rattle.engine.specs.Checking.{Upward, lineage, above_of, judged_by, status_for, NotedFor, Located, read_for, restarts_leaf, Checked, Decided};

use crate::{Conditions, profile, walk};
use index::entries::Scan;
use index::{entries, notes};
use tableaux::tableau;
use tableaux::tableau::Place;
use unification::memory;
use unification::unify::Unmet;
use words::{Step, fields};

// The checker's statuses.
pub const MALFORMED: u32 = 12;

pub const NOT_ALLOWED: u32 = 13;

pub const CLASHING: u32 = 14;

pub const LEAVES_OPEN: u32 = 15;

pub const CIRCULAR: u32 = 20;

// The literals of the body are noted for a proof of more steps.
const LONG: usize = 16;

// Why a step is refused: it is malformed, not allowed, or its pair does not unify with what is bound, since two symbols differ or a variable would hold itself; or why a whole proof is: leaves stay open.
#[derive(Clone, Copy)]
pub enum Refusal {
    Malformed,
    NotAllowed,
    Clashes,
    Circular,
    LeavesOpen,
}

// Why a proof is refused, and at which step.
#[derive(Clone, Copy)]
pub struct Refused {
    pub why: Refusal,
    pub place: u32,
}

// The reference of the literal of the ancestor at a height: 1 is the parent.
fn ancestor(work: &[u32], head: u32, height: u32) -> Option<u32>
    requires { (length work.now ≡ work_words) × (0 < head) × (head ≤ most_leaves) × Upward work.now head }
    ensures { result ≡ above_of (get_elem? (lineage work.now head) height) }
{
    let mut at = head;
    let mut left = height;
    while left != 0 {
        at = tableau::parent_of(work, at);
        if at == 0 {
            return None;
        }
        left -= 1;
    }
    Some(tableau::literal_of(work, at))
}

// The word that fits the leftmost leaf.
fn wanted(file: &[u32], work: &[u32], place: Place) -> u32
    requires { Ready file.now work.now place × (0 < place.head) }
    ensures { result ≡ other_sign (word_at file.now work.now (leaf_of work.now place)) }
{
    entries::other_sign(memory::word_at(file, work, tableau::literal_of(work, place.head)))
}

fn by_meeting(taken: Result<Place, Unmet>) -> Result<Place, Refusal>
    ensures { result ≡ judged_by taken }
{
    match taken {
        Ok(place) => Ok(place),
        Err(Unmet::Clash) => Err(Refusal::Clashes),
        Err(Unmet::Circle) => Err(Refusal::Circular),
    }
}

fn reduction(
    file: &[u32],
    work: &mut [u32],
    place: Place,
    word: u32,
    height: u32,
) -> Result<Place, Refusal>
    requires { Ready file.now work.old place }
    ensures { (conditions : Conditions) → read_for conditions word ≡ Step.Reduction height → Checked file.now work.old work.new conditions place word result }
{
    let head = place.head;
    if head == 0 {
        return Err(Refusal::NotAllowed);
    }
    let above = ancestor(work, head, height);
    let Some(literal) = above else {
        return Err(Refusal::NotAllowed);
    };
    let found = memory::word_at(file, work, literal);
    if found != wanted(file, work, place) {
        return Err(Refusal::NotAllowed);
    }
    by_meeting(tableau::reduce(file, work, place, literal, word))
}

// How many words the body of an accepted file has.
fn body_of(file: &[u32]) -> u32
    requires { (judge file.now).status ≡ 0 }
    ensures { result ≡ length file.now - 4 }
{
    (file.len() - 4) as u32
}

// The literals of the body are noted, where the proof is long.
pub fn prepare(file: &[u32], work: &mut [u32], noted: bool)
    requires { (length work.old ≡ work_words) × ((judge file.now).status ≡ 0) }
    ensures { NotedFor noted file.now work.new }
{
    if !noted {
        return;
    }
    notes::note(file, work, body_of(file));
}

// The literal of a number in the clause of a number, by the notes or by a walk.
fn entered(file: &[u32], work: &[u32], noted: bool, clause: u32, literal: u32) -> Option<Scan>
    requires { ((judge file.now).status ≡ 0) × NotedFor noted file.now work.now × (clause < 512) }
    ensures { Located file.now clause literal result }
{
    if noted {
        return notes::entry(work, clause, literal);
    }
    walk::entry(file, clause, literal)
}

fn extension(
    file: &[u32],
    work: &mut [u32],
    noted: bool,
    conditions: Conditions,
    place: Place,
    word: u32,
    clause: u32,
    literal: u32,
) -> Result<Place, Refusal>
    requires { Ready file.now work.old place × ((judge file.now).status ≡ 0) × (conditions.bound ≤ 32) × (read_for conditions word ≡ Step.Extension clause literal) × NotedFor noted file.now work.old × (restarts_leaf file.now work.old conditions place ≡ false) }
    ensures { Checked file.now work.old work.new conditions place word result }
{
    if place.head == 0 {
        return Err(Refusal::NotAllowed);
    }
    if conditions.bound < work[memory::COPIES] {
        return Err(Refusal::NotAllowed);
    }
    let found = entered(file, work, noted, clause, literal);
    let Some(entry) = found else {
        return Err(Refusal::NotAllowed);
    };
    let at = entry.at;
    let start = entry.start;
    if file[fields::wide(at)] != wanted(file, work, place) {
        return Err(Refusal::NotAllowed);
    }
    by_meeting(tableau::extend(file, work, place, start, at - start, word))
}

// Whether the leftmost leaf, if any is open, is restarted.
fn restarts_leaf(file: &[u32], work: &[u32], conditions: Conditions, place: Place) -> bool
    requires { Ready file.now work.now place }
    ensures { result ≡ restarts_leaf file.now work.now conditions place }
{
    let head = place.head;
    if head == 0 {
        return false;
    }
    let word = memory::word_at(file, work, tableau::literal_of(work, head));
    profile::restarts(conditions.restarts, word)
}

fn restart(
    file: &[u32],
    work: &mut [u32],
    question: u32,
    conditions: Conditions,
    place: Place,
    word: u32,
) -> Result<Place, Refusal>
    requires { Ready file.now work.old place × ((judge file.now).status ≡ 0) × (conditions.bound ≤ 32) × (question ≡ (judge file.now).question) × (read_for conditions word ≡ Step.Restart) }
    ensures { Checked file.now work.old work.new conditions place word result }
{
    if !restarts_leaf(file, work, conditions, place) {
        return Err(Refusal::NotAllowed);
    }
    if conditions.bound < work[memory::COPIES] {
        return Err(Refusal::NotAllowed);
    }
    Ok(tableau::restart(file, work, place, question, word))
}

pub fn step_taken(
    file: &[u32],
    work: &mut [u32],
    noted: bool,
    question: u32,
    conditions: Conditions,
    place: Place,
    word: u32,
) -> Result<Place, Refusal>
    requires { Ready file.now work.old place × ((judge file.now).status ≡ 0) × (conditions.bound ≤ 32) × NotedFor noted file.now work.old × (question ≡ (judge file.now).question) }
    ensures { Checked file.now work.old work.new conditions place word result }
{
    let step = words::steps::decode_for(conditions.restarts, word);
    match step {
        Step::Reduction(height) => reduction(file, work, place, word, height),
        Step::Extension(clause, literal) => {
            if restarts_leaf(file, work, conditions, place) {
                return Err(Refusal::NotAllowed);
            }
            extension(file, work, noted, conditions, place, word, clause, literal)
        }
        Step::Restart => restart(file, work, question, conditions, place, word),
        Step::Malformed => Err(Refusal::Malformed),
    }
}

// Document 01's number of a refusal.
pub fn status(why: Refusal) -> u32
    ensures { result ≡ status_for why }
{
    match why {
        Refusal::Malformed => MALFORMED,
        Refusal::NotAllowed => NOT_ALLOWED,
        Refusal::Clashes => CLASHING,
        Refusal::Circular => CIRCULAR,
        Refusal::LeavesOpen => LEAVES_OPEN,
    }
}

// The number of steps of an accepted proof.
pub fn run(
    file: &[u32],
    work: &mut [u32],
    question: u32,
    conditions: Conditions,
    offered: &[u32],
) -> Result<u32, Refused>
    requires { (length work.old ≡ work_words) × ((judge file.now).status ≡ 0) × (question ≡ (judge file.now).question) × (conditions.bound ≤ 32) }
    ensures { Decided file.now work.new question conditions offered.now result }
{
    let noted = LONG < offered.len();
    prepare(file, work, noted);
    let mut place = tableau::begin(file, work, question);
    for word in offered {
        match step_taken(file, work, noted, question, conditions, place, *word) {
            Ok(next) => place = next,
            Err(why) => {
                return Err(Refused {
                    why,
                    place: place.steps,
                });
            }
        }
    }
    if place.head != 0 {
        return Err(Refused {
            why: Refusal::LeavesOpen,
            place: place.steps,
        });
    }
    Ok(place.steps)
}
