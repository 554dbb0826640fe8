// A proof looked for bound by bound.
ghost use Rattle.std.specs.Prelude.{◌≡◌, ◌-◌, ◌≤◌};
ghost use Rattle.asking.specs.Program.{asked};
ghost use Rattle.answering.specs.Looking.{up_to, looked, Tells, Searchable};

use crate::progress;
use hukolearu::{Outcome, calls, status};

// The bound of the last search, the tries of all bounds up to it, and what that search said.
#[derive(Clone, Copy)]
pub struct Looked {
    pub bound: u32,
    pub tries: u32,
    pub outcome: Outcome,
}

// A search at a bound, with what the bounds before have left of the budget.
fn at_bound(
    file: &[u32],
    bound: u32,
    budget: u32,
    used: u32,
    proof: &mut [u32],
    answer: &mut [u32],
    work: &mut [u32],
) -> Looked
    requires { Searchable file.now bound proof.old answer.old work.old × (used ≤ budget) }
    ensures { Tells (up_to bound used (asked file.now bound (budget - used))) result proof.old proof.new answer.old answer.new }
{
    let outcome = calls::search(file, bound, budget - used, proof, answer, work);
    Looked {
        bound,
        tries: used + outcome.tries,
        outcome,
    }
}

// Where someone watches, each bound that says "none" is told on the way.
pub fn look(
    rt: &impl Eprint,
    watched: bool,
    file: &[u32],
    limit: u32,
    budget: u32,
    proof: &mut [u32],
    answer: &mut [u32],
    work: &mut [u32],
) -> Looked
    requires { Searchable file.now limit proof.old answer.old work.old }
    ensures { Tells (looked file.now limit budget) result proof.old proof.new answer.old answer.new }
{
    let mut used = 0;
    for bound in 0..limit {
        let last = at_bound(file, bound, budget, used, proof, answer, work);
        if last.outcome.status != status::NONE_FOUND {
            return last;
        }
        used = last.tries;
        progress::tell(rt, watched, bound, used);
    }
    at_bound(file, limit, budget, used, proof, answer, work)
}
