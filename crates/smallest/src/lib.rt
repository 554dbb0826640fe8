// The smallest bound (document 02, order 6): bounds 0, 1, 2 up to a limit are tried with one budget for all.
#![tactic(auto)]

ghost use Rattle.std.specs.Prelude.{◌≡◌, ◌+◌, ◌≤◌, length};
ghost use Rattle.table.specs.File.{table_in};
ghost use Rattle.hukolearu.specs.Door.{work_after};
ghost use Rattle.hukolearu.specs.Calls.{search_with, at_front};
ghost use Rattle.hukolearu.specs.Telling.{Passed};
ghost use Rattle.smallest.specs.Smallest.{ended, summed, smallest_call};
ghost use Rattle.smallest.specs.Trying.{Tells, tried_inside};

use hukolearu::door::Inputs;
use hukolearu::{Outcome, calls, door, status};
use unification::memory;

// What comes back: the bound of a proof, its answer fitting or not, else 0; and the numbers of a search, its tries summed over the bounds.
#[repr(C)]
#[derive(Clone, Copy)]
pub struct Least {
    pub bound: u32,
    pub outcome: Outcome,
}

// The bound of a search is told unless it ran out; else 0, as C gets it.
fn told(bound: u32, status: u32) -> u32
    ensures { result ≡ ended bound status }
{
    if status == status::RAN_OUT {
        return 0;
    }
    bound
}

// The tries of the bounds before are added.
fn summed(used: u32, outcome: Outcome) -> Outcome
    requires { used + outcome.tries ≤ 4294967295 }
    ensures { result ≡ summed used outcome }
{
    Outcome {
        tries: used + outcome.tries,
        ..outcome
    }
}

#[tactic(auto, using(crate::proofs::Bounds::begins, crate::proofs::Bounds::all_tried, crate::proofs::Bounds::passed_at, crate::proofs::Bounds::sum_fits, crate::proofs::Bounds::next, crate::proofs::Bounds::over))]
// Bound by bound, past the door: what is left of the budget goes to the next bound.
fn tried(
    file: &[u32],
    question: u32,
    limit: u32,
    budget: u32,
    proof: &mut [u32],
    answer: &mut [u32],
    work: &mut [u32],
) -> Least
    requires { Passed file.now work.old question limit × (199 ≤ length proof.old) }
    ensures { Tells (tried_inside (table_in file.now) (length answer.old) budget limit) result proof.old proof.new answer.old answer.new }
{
    let mut used = 0;
    for bound in 0..=limit {
        let outcome = calls::searched(file, question, bound, budget - used, proof, answer, work);
        let status = outcome.status;
        if status != status::NONE_FOUND {
            return Least {
                bound: told(bound, status),
                outcome: summed(used, outcome),
            };
        }
        used += outcome.tries;
    }
    Least {
        bound: 0,
        outcome: calls::refused(status::NONE_FOUND, 0, used),
    }
}

// The least bound up to the limit at which a proof is found, with the proof and its answer.
pub fn smallest(
    file: &[u32],
    limit: u32,
    budget: u32,
    proof: &mut [u32],
    answer: &mut [u32],
    work: &mut [u32],
) -> Least
    ensures bound_value { result.bound ≡ (smallest_call (search_with file.now limit budget proof.old answer.old work.old)).bound }
    ensures outcome_value { result.outcome ≡ (smallest_call (search_with file.now limit budget proof.old answer.old work.old)).given.outcome }
    ensures proof_after { proof.new ≡ at_front (smallest_call (search_with file.now limit budget proof.old answer.old work.old)).given.proof proof.old }
    ensures answer_after { answer.new ≡ at_front (smallest_call (search_with file.now limit budget proof.old answer.old work.old)).given.answer answer.old }
    ensures work_after { work.new ≡ work_after work.old }
{
    let inputs = Inputs {
        bound: limit,
        work: work.len(),
        proof: proof.len(),
        least: calls::LONGEST_PROOF,
    };
    match door::enter(file, inputs) {
        Err(refusal) => {
            door::leave(work);
            Least {
                bound: 0,
                outcome: calls::refused(refusal.status, refusal.place, 0),
            }
        }
        Ok(question) => {
            let least = tried(
                file,
                question,
                limit,
                budget,
                proof,
                answer,
                &mut work[..memory::ROOM],
            );
            door::leave(work);
            least
        }
    }
}
