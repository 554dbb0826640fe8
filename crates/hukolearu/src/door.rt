// The door that every call passes through: the checks of input in their order, and the work words zero at the end.
ghost use Rattle.std.specs.Prelude.{◌≡◌};
ghost use Rattle.hukolearu.specs.Door.{placeless, entry_of, work_after};

use crate::status;
use unification::memory;

const HIGHEST_BOUND: u32 = 32;

// What the checks look at beside the file: the bound, the words of work and of proof that were lent, and the least words of proof that will do.
#[derive(Clone, Copy)]
pub struct Inputs {
    pub bound: u32,
    pub work: usize,
    pub proof: usize,
    pub least: usize,
}

// Document 01's number of the first check that is not passed, and the place.
#[derive(Clone, Copy)]
pub struct Refusal {
    pub status: u32,
    pub place: u32,
}

fn placeless(status: u32) -> Refusal
    ensures { result ≡ placeless status }
{
    Refusal { status, place: 0 }
}

// Where the question begins.
pub fn enter(file: &[u32], inputs: Inputs) -> Result<u32, Refusal>
    ensures { result ≡ entry_of file.now inputs }
{
    if inputs.work < memory::ROOM {
        return Err(placeless(status::WORK_TOO_SHORT));
    }
    if inputs.proof < inputs.least {
        return Err(placeless(status::PROOF_TOO_SHORT));
    }
    if HIGHEST_BOUND < inputs.bound {
        return Err(placeless(status::BOUND_TOO_HIGH));
    }
    let judged = table::file::judge(file);
    if judged.status != 0 {
        return Err(Refusal {
            status: judged.status,
            place: judged.place,
        });
    }
    Ok(judged.question as u32)
}

// The first work words, so many as a call works on, are zero; too few are left as they are.
pub fn leave(work: &mut [u32])
    ensures { work.new ≡ work_after work.old }
{
    if work.len() < memory::ROOM {
        return;
    }
    memory::clear(work, 0, memory::ROOM);
}
