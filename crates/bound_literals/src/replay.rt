// Steps taken again, up to their last.
ghost use Rattle.std.specs.Prelude.{◌≡◌};
ghost use Rattle.hukolearu.specs.Telling.{Passed};
ghost use Rattle.bound_literals.specs.Held.{Replayed};

use engine::{Conditions, check};
use tableaux::tableau;

// Whether each step can be taken.
pub(crate) fn replay(
    file: &[u32],
    work: &mut [u32],
    question: u32,
    conditions: Conditions,
    steps: &[u32],
) -> bool
    requires { Passed file.now work.old question conditions.bound }
    ensures { Replayed file.now work.new conditions steps.now result }
{
    check::prepare(file, work, true);
    let mut place = tableau::begin(file, work, question);
    for step in steps {
        let judged = check::step_taken(file, work, true, question, conditions, place, *step);
        let Ok(next) = judged else {
            return false;
        };
        place = next;
    }
    true
}
