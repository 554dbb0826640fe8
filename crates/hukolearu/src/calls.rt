// The public calls: through the door, then the work on lent words.
ghost use Rattle.std.specs.Prelude.{◌≡◌, [], ◌≤◌, length, take, drop};
ghost use Rattle.table.specs.File.{table_in};
ghost use Rattle.rules.specs.Machinery.Play.{check, search_for};
ghost use Rattle.rules.specs.Setting.{profile_of, longest_proof, read_steps, base};
ghost use Rattle.unification.specs.Places.{most_leaves, step_places, work_words};
ghost use Rattle.unification.specs.Good.{Good};
ghost use Rattle.engine.specs.Ended.{setting_for};
ghost use Rattle.answers.specs.Writing.{answer_held, disjuncts_kept};
ghost use Rattle.hukolearu.specs.Door.{work_after};
ghost use Rattle.hukolearu.specs.Calls.{refused, granted, room_of, search_given, check_given, search_by, search_call, search_with, check_by, check_call, check_with, at_front};
ghost use Rattle.hukolearu.specs.Telling.{Told, Passed, Answerable, Fits, Writable, held};

use crate::door::Inputs;
use crate::{Outcome, door, status};
use answers::{answer, once};
use engine::search::Ending;
use engine::{Conditions, check, search};
use unification::memory;
use words::fields;

// A search's longest proof by document 01's rules, and where leaves are restarted.
pub const LONGEST_PROOF: usize = 199;

pub const LONGEST_RESTARTED: usize = 231;

fn longest_proof(restarts: bool) -> usize
    ensures { result ≡ longest_proof (profile_of restarts) }
{
    if restarts {
        return LONGEST_RESTARTED;
    }
    LONGEST_PROOF
}

pub fn refused(status: u32, place: u32, tries: u32) -> Outcome
    ensures { result ≡ (refused status place tries).outcome }
{
    Outcome {
        status,
        place,
        proof: 0,
        disjuncts: 0,
        answer: 0,
        tries,
    }
}

// A length is told in one word, so no more room than that counts.
fn room_of(words: usize) -> usize
    ensures { result ≡ room_of words }
{
    words.min(4294967295)
}

// Which copies of the question the answer keeps, and whether it fits.
fn fits(file: &[u32], work: &mut [u32], question: u32, words: usize) -> bool
    requires { Good file.now work.old }
    ensures { Fits file.now work.old work.new question words result }
{
    once::choose(file, work, question);
    answer::room_after(file, work, room_of(words)).is_some()
}

// The answer, which fits, is written.
fn granted(file: &[u32], work: &mut [u32], answer: &mut [u32], proof: u32, tries: u32) -> Outcome
    requires { Writable file.now work.old answer.old }
    ensures { Told (granted proof [] (length (disjuncts_kept file.now work.old)) (answer_held file.now work.old) tries) result [] [] answer.old answer.new }
{
    let written = answer::write(file, work, answer);
    Outcome {
        status: status::DONE,
        place: 0,
        proof,
        disjuncts: written.disjuncts,
        answer: written.words,
        tries,
    }
}

// Word by word, as table::build::append.
fn copy_steps(work: &[u32], proof: &mut [u32], count: u32)
    requires { (length work.now ≡ work_words) × (count ≤ most_leaves) × (count ≤ length proof.old) }
    ensures { proof.new ≡ at_front (take count (drop step_places work.now)) proof.old }
{
    for i in 0..fields::wide(count) {
        proof[i] = work[memory::STEPS + i];
    }
}

// The steps that a search found and their answer, if it fits.
fn found(
    file: &[u32],
    question: u32,
    steps: u32,
    tries: u32,
    proof: &mut [u32],
    answer: &mut [u32],
    work: &mut [u32],
) -> Outcome
    requires { Answerable file.now work.old × (steps ≤ most_leaves) × (steps ≤ length proof.old) }
    ensures { Told (held file.now work.old question steps (take steps (drop step_places work.old)) tries (length answer.old)) result proof.old proof.new answer.old answer.new }
{
    if !fits(file, work, question, answer.len()) {
        return refused(status::ANSWER_TOO_LONG, 0, tries);
    }
    copy_steps(work, proof, steps);
    granted(file, work, answer, steps, tries)
}

// A search past the door, under any conditions.
pub fn searched_by(
    file: &[u32],
    question: u32,
    conditions: Conditions,
    budget: u32,
    proof: &mut [u32],
    answer: &mut [u32],
    work: &mut [u32],
) -> Outcome
    requires { Passed file.now work.old question conditions.bound × (longest_proof (profile_of conditions.restarts) ≤ length proof.old) }
    ensures { Told (search_given (setting_for file.now conditions) (length answer.old) (search_for (setting_for file.now conditions) budget)) result proof.old proof.new answer.old answer.new }
{
    let ended = search::find(file, work, question, conditions, budget);
    let ending = ended.ending;
    let left = ended.left;
    let steps = ended.steps;
    match ending {
        Ending::Nothing => refused(status::NONE_FOUND, 0, budget - left),
        Ending::Out => refused(status::RAN_OUT, 0, budget),
        Ending::Found => found(file, question, steps, budget - left, proof, answer, work),
    }
}

// A search past the door by document 01's rules.
pub fn searched(
    file: &[u32],
    question: u32,
    bound: u32,
    budget: u32,
    proof: &mut [u32],
    answer: &mut [u32],
    work: &mut [u32],
) -> Outcome
    requires { Passed file.now work.old question bound × (199 ≤ length proof.old) }
    ensures { Told (search_given (base (table_in file.now) bound) (length answer.old) (search_for (base (table_in file.now) bound) budget)) result proof.old proof.new answer.old answer.new }
{
    let conditions = Conditions {
        bound,
        restarts: false,
    };
    searched_by(file, question, conditions, budget, proof, answer, work)
}

// A search by document 01's rules, or where leaves are restarted.
pub fn search_by(
    file: &[u32],
    conditions: Conditions,
    budget: u32,
    proof: &mut [u32],
    answer: &mut [u32],
    work: &mut [u32],
) -> Outcome
    ensures value { result ≡ (search_by (profile_of conditions.restarts) (search_with file.now conditions.bound budget proof.old answer.old work.old)).outcome }
    ensures proof_after { proof.new ≡ at_front (search_by (profile_of conditions.restarts) (search_with file.now conditions.bound budget proof.old answer.old work.old)).proof proof.old }
    ensures answer_after { answer.new ≡ at_front (search_by (profile_of conditions.restarts) (search_with file.now conditions.bound budget proof.old answer.old work.old)).answer answer.old }
    ensures work_after { work.new ≡ work_after work.old }
{
    let least = longest_proof(conditions.restarts);
    let inputs = Inputs {
        bound: conditions.bound,
        work: work.len(),
        proof: proof.len(),
        least,
    };
    match door::enter(file, inputs) {
        Err(refusal) => {
            door::leave(work);
            refused(refusal.status, refusal.place, 0)
        }
        Ok(question) => {
            let outcome = searched_by(
                file,
                question,
                conditions,
                budget,
                proof,
                answer,
                &mut work[..memory::ROOM],
            );
            door::leave(work);
            outcome
        }
    }
}

pub fn search(
    file: &[u32],
    bound: u32,
    budget: u32,
    proof: &mut [u32],
    answer: &mut [u32],
    work: &mut [u32],
) -> Outcome
    ensures value { result ≡ (search_call (search_with file.now bound budget proof.old answer.old work.old)).outcome }
    ensures proof_after { proof.new ≡ at_front (search_call (search_with file.now bound budget proof.old answer.old work.old)).proof proof.old }
    ensures answer_after { answer.new ≡ at_front (search_call (search_with file.now bound budget proof.old answer.old work.old)).answer answer.old }
    ensures work_after { work.new ≡ work_after work.old }
{
    let conditions = Conditions {
        bound,
        restarts: false,
    };
    search_by(file, conditions, budget, proof, answer, work)
}

// The answer of an accepted proof, if it fits.
fn accepted(
    file: &[u32],
    question: u32,
    steps: u32,
    answer: &mut [u32],
    work: &mut [u32],
) -> Outcome
    requires { Answerable file.now work.old }
    ensures { Told (held file.now work.old question steps [] 0 (length answer.old)) result [] [] answer.old answer.new }
{
    if !fits(file, work, question, answer.len()) {
        return refused(status::ANSWER_TOO_LONG, 0, 0);
    }
    granted(file, work, answer, steps, 0)
}

// A check of a proof past the door.
pub fn checked(
    file: &[u32],
    question: u32,
    conditions: Conditions,
    offered: &[u32],
    answer: &mut [u32],
    work: &mut [u32],
) -> Outcome
    requires { Passed file.now work.old question conditions.bound }
    ensures { Told (check_given (table_in file.now) (length offered.now) (length answer.old) (check (setting_for file.now conditions) (read_steps (profile_of conditions.restarts) offered.now))) result [] [] answer.old answer.new }
{
    match check::run(file, work, question, conditions, offered) {
        Err(refusal) => refused(check::status(refusal.why), refusal.place, 0),
        Ok(steps) => accepted(file, question, steps, answer, work),
    }
}

// A check by document 01's rules, or where leaves are restarted.
pub fn check_by(
    file: &[u32],
    conditions: Conditions,
    offered: &[u32],
    answer: &mut [u32],
    work: &mut [u32],
) -> Outcome
    ensures value { result ≡ (check_by (profile_of conditions.restarts) (check_with file.now conditions.bound offered.now answer.old work.old)).outcome }
    ensures answer_after { answer.new ≡ at_front (check_by (profile_of conditions.restarts) (check_with file.now conditions.bound offered.now answer.old work.old)).answer answer.old }
    ensures work_after { work.new ≡ work_after work.old }
{
    let inputs = Inputs {
        bound: conditions.bound,
        work: work.len(),
        proof: 0,
        least: 0,
    };
    match door::enter(file, inputs) {
        Err(refusal) => {
            door::leave(work);
            refused(refusal.status, refusal.place, 0)
        }
        Ok(question) => {
            let outcome = checked(
                file,
                question,
                conditions,
                offered,
                answer,
                &mut work[..memory::ROOM],
            );
            door::leave(work);
            outcome
        }
    }
}

pub fn check_proof(
    file: &[u32],
    bound: u32,
    offered: &[u32],
    answer: &mut [u32],
    work: &mut [u32],
) -> Outcome
    ensures value { result ≡ (check_call (check_with file.now bound offered.now answer.old work.old)).outcome }
    ensures answer_after { answer.new ≡ at_front (check_call (check_with file.now bound offered.now answer.old work.old)).answer answer.old }
    ensures work_after { work.new ≡ work_after work.old }
{
    let conditions = Conditions {
        bound,
        restarts: false,
    };
    check_by(file, conditions, offered, answer, work)
}
