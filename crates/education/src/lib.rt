// The education desk (document 02, order 8): the search and the checker over the table without restricted clauses. They are put to a copy of the file that
// has the other clauses alone, so that no restricted word comes near the engine.
#![tactic(auto)]

ghost use Rattle.std.specs.Prelude.{◌≡◌, length};
ghost use Rattle.rules.specs.Setting.{profile_of};
ghost use Rattle.hukolearu.specs.Door.{work_after};
ghost use Rattle.hukolearu.specs.Calls.{search_with, check_with, at_front};
ghost use Rattle.education.specs.Education.{education_by, education_search, education_check_by, education_check};

use engine::Conditions;
use hukolearu::{Outcome, calls};

// Room for the longest file.
fn file_buffer() -> [u32; 16000]
    ensures { length result ≡ 16000 }
{
    [0; 16000]
}

// By document 01's rules, or where leaves are restarted.
pub fn search_by(
    file: &[u32],
    conditions: Conditions,
    budget: u32,
    proof: &mut [u32],
    answer: &mut [u32],
    work: &mut [u32],
) -> Outcome
    ensures value { result ≡ (education_by (profile_of conditions.restarts) (search_with file.now conditions.bound budget proof.old answer.old work.old)).outcome }
    ensures proof_after { proof.new ≡ at_front (education_by (profile_of conditions.restarts) (search_with file.now conditions.bound budget proof.old answer.old work.old)).proof proof.old }
    ensures answer_after { answer.new ≡ at_front (education_by (profile_of conditions.restarts) (search_with file.now conditions.bound budget proof.old answer.old work.old)).answer answer.old }
    ensures work_after { work.new ≡ work_after work.old }
{
    let mut copy = file_buffer();
    let words = seen::copy_seen(file, &mut copy);
    if words == 0 {
        return calls::search_by(file, conditions, budget, proof, answer, work);
    }
    calls::search_by(&copy[..words], conditions, budget, proof, answer, work)
}

pub fn search(
    file: &[u32],
    bound: u32,
    budget: u32,
    proof: &mut [u32],
    answer: &mut [u32],
    work: &mut [u32],
) -> Outcome
    ensures value { result ≡ (education_search (search_with file.now bound budget proof.old answer.old work.old)).outcome }
    ensures proof_after { proof.new ≡ at_front (education_search (search_with file.now bound budget proof.old answer.old work.old)).proof proof.old }
    ensures answer_after { answer.new ≡ at_front (education_search (search_with file.now bound budget proof.old answer.old work.old)).answer answer.old }
    ensures work_after { work.new ≡ work_after work.old }
{
    let conditions = Conditions {
        bound,
        restarts: false,
    };
    search_by(file, conditions, budget, proof, answer, work)
}

// By document 01's rules, or where leaves are restarted.
pub fn check_by(
    file: &[u32],
    conditions: Conditions,
    offered: &[u32],
    answer: &mut [u32],
    work: &mut [u32],
) -> Outcome
    ensures value { result ≡ (education_check_by (profile_of conditions.restarts) (check_with file.now conditions.bound offered.now answer.old work.old)).outcome }
    ensures answer_after { answer.new ≡ at_front (education_check_by (profile_of conditions.restarts) (check_with file.now conditions.bound offered.now answer.old work.old)).answer answer.old }
    ensures work_after { work.new ≡ work_after work.old }
{
    let mut copy = file_buffer();
    let length = seen::copy_seen(file, &mut copy);
    if length == 0 {
        return calls::check_by(file, conditions, offered, answer, work);
    }
    calls::check_by(&copy[..length], conditions, offered, answer, work)
}

pub fn check_proof(
    file: &[u32],
    bound: u32,
    offered: &[u32],
    answer: &mut [u32],
    work: &mut [u32],
) -> Outcome
    ensures value { result ≡ (education_check (check_with file.now bound offered.now answer.old work.old)).outcome }
    ensures answer_after { answer.new ≡ at_front (education_check (check_with file.now bound offered.now answer.old work.old)).answer answer.old }
    ensures work_after { work.new ≡ work_after work.old }
{
    let conditions = Conditions {
        bound,
        restarts: false,
    };
    check_by(file, conditions, offered, answer, work)
}
