// The search and the checker by the rules read one way. A clause without a positive literal, which nothing could enter, is refused after all other
// checks of input.
ghost use Rattle.std.specs.Prelude.{◌≡◌};
ghost use Rattle.table.specs.File.{table_in};
ghost use Rattle.seen.specs.Copying.{seen_in};
ghost use Rattle.hukolearu.specs.Door.{work_after};
ghost use Rattle.hukolearu.specs.Calls.{search_with, check_with, at_front};
ghost use Rattle.restart.specs.Walking.{conclusions_of};
ghost use Rattle.restart.specs.Restart.{missing_for, search_on, check_on};

use crate::conclusions;
use engine::Conditions;
use hukolearu::door::Inputs;
use hukolearu::{Outcome, calls, door};
use words::fields;

const NO_CONCLUSION: u32 = 22;

// Where the clause begins that is missing a conclusion, where all other checks are passed.
fn missing(file: &[u32], inputs: Inputs) -> Option<usize>
    ensures { result ≡ conclusions_of (missing_for file.now inputs) }
{
    match door::enter(file, inputs) {
        Err(_) => None,
        Ok(question) => conclusions::judge(file, fields::wide(question)),
    }
}

pub fn search(
    file: &[u32],
    bound: u32,
    budget: u32,
    proof: &mut [u32],
    answer: &mut [u32],
    work: &mut [u32],
) -> Outcome
    ensures value { result ≡ (search_on table_in (search_with file.now bound budget proof.old answer.old work.old)).outcome }
    ensures proof_after { proof.new ≡ at_front (search_on table_in (search_with file.now bound budget proof.old answer.old work.old)).proof proof.old }
    ensures answer_after { answer.new ≡ at_front (search_on table_in (search_with file.now bound budget proof.old answer.old work.old)).answer answer.old }
    ensures work_after { work.new ≡ work_after work.old }
{
    let inputs = Inputs {
        bound,
        work: work.len(),
        proof: proof.len(),
        least: calls::LONGEST_RESTARTED,
    };
    match missing(file, inputs) {
        Some(place) => {
            door::leave(work);
            calls::refused(NO_CONCLUSION, place as u32, 0)
        }
        None => {
            let conditions = Conditions {
                bound,
                restarts: true,
            };
            calls::search_by(file, conditions, budget, proof, answer, work)
        }
    }
}

pub fn check_proof(
    file: &[u32],
    bound: u32,
    offered: &[u32],
    answer: &mut [u32],
    work: &mut [u32],
) -> Outcome
    ensures value { result ≡ (check_on table_in (check_with file.now bound offered.now answer.old work.old)).outcome }
    ensures answer_after { answer.new ≡ at_front (check_on table_in (check_with file.now bound offered.now answer.old work.old)).answer answer.old }
    ensures work_after { work.new ≡ work_after work.old }
{
    let inputs = Inputs {
        bound,
        work: work.len(),
        proof: 0,
        least: 0,
    };
    match missing(file, inputs) {
        Some(place) => {
            door::leave(work);
            calls::refused(NO_CONCLUSION, place as u32, 0)
        }
        None => {
            let conditions = Conditions {
                bound,
                restarts: true,
            };
            calls::check_by(file, conditions, offered, answer, work)
        }
    }
}

// Education's: 22 is judged on the whole file, and what follows sees the copy without restricted clauses.
pub fn education_search(
    file: &[u32],
    bound: u32,
    budget: u32,
    proof: &mut [u32],
    answer: &mut [u32],
    work: &mut [u32],
) -> Outcome
    ensures value { result ≡ (search_on seen_in (search_with file.now bound budget proof.old answer.old work.old)).outcome }
    ensures proof_after { proof.new ≡ at_front (search_on seen_in (search_with file.now bound budget proof.old answer.old work.old)).proof proof.old }
    ensures answer_after { answer.new ≡ at_front (search_on seen_in (search_with file.now bound budget proof.old answer.old work.old)).answer answer.old }
    ensures work_after { work.new ≡ work_after work.old }
{
    let inputs = Inputs {
        bound,
        work: work.len(),
        proof: proof.len(),
        least: calls::LONGEST_RESTARTED,
    };
    match missing(file, inputs) {
        Some(place) => {
            door::leave(work);
            calls::refused(NO_CONCLUSION, place as u32, 0)
        }
        None => {
            let conditions = Conditions {
                bound,
                restarts: true,
            };
            education::search_by(file, conditions, budget, proof, answer, work)
        }
    }
}

pub fn education_check(
    file: &[u32],
    bound: u32,
    offered: &[u32],
    answer: &mut [u32],
    work: &mut [u32],
) -> Outcome
    ensures value { result ≡ (check_on seen_in (check_with file.now bound offered.now answer.old work.old)).outcome }
    ensures answer_after { answer.new ≡ at_front (check_on seen_in (check_with file.now bound offered.now answer.old work.old)).answer answer.old }
    ensures work_after { work.new ≡ work_after work.old }
{
    let inputs = Inputs {
        bound,
        work: work.len(),
        proof: 0,
        least: 0,
    };
    match missing(file, inputs) {
        Some(place) => {
            door::leave(work);
            calls::refused(NO_CONCLUSION, place as u32, 0)
        }
        None => {
            let conditions = Conditions {
                bound,
                restarts: true,
            };
            education::check_by(file, conditions, offered, answer, work)
        }
    }
}
