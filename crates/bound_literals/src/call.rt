// The public call: through the door, the steps taken again, then a slot for each literal.
ghost use Rattle.std.specs.Prelude.{◌≡◌, length};
ghost use Rattle.text.specs.Put.{Put};
ghost use Rattle.hukolearu.specs.Door.{work_after};
ghost use Rattle.hukolearu.specs.Telling.{Passed};
ghost use Rattle.bound_literals.specs.Bound.{bound_literals};
ghost use Rattle.bound_literals.specs.Held.{slots_after};

use crate::{replay, slot};
use engine::Conditions;
use hukolearu::door;
use hukolearu::door::Inputs;
use unification::memory;

// Past the door.
fn written(
    file: &[u32],
    question: u32,
    conditions: Conditions,
    steps: &[u32],
    out: &mut [u32],
    work: &mut [u32],
) -> usize
    requires { Passed file.now work.old question conditions.bound }
    ensures { Put out.old 0 (slots_after file.now conditions steps.now) out.new result }
{
    if !replay::replay(file, work, question, conditions, steps) {
        return 0;
    }
    slot::slots(file, work, out)
}

// Every literal of every copy under what is bound after these steps, by document 01's rules. Nothing is written where the file, the bound or the
// work words are refused, or where a step cannot be taken.
pub fn literals(file: &[u32], bound: u32, steps: &[u32], out: &mut [u32], work: &mut [u32]) -> usize
    ensures put { Put out.old 0 (bound_literals file.now bound steps.now (length work.old)) out.new result }
    ensures work_after { work.new ≡ work_after work.old }
{
    let inputs = Inputs {
        bound,
        work: work.len(),
        proof: 0,
        least: 0,
    };
    match door::enter(file, inputs) {
        Err(_) => {
            door::leave(work);
            0
        }
        Ok(question) => {
            let conditions = Conditions {
                bound,
                restarts: false,
            };
            let n = written(
                file,
                question,
                conditions,
                steps,
                out,
                &mut work[..memory::ROOM],
            );
            door::leave(work);
            n
        }
    }
}
