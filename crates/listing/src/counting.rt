// How often the steps of a proof copy each clause.
ghost use Rattle.std.specs.Prelude.{◌≡◌, map, ◌≤◌, length, replicate};
ghost use Rattle.words.specs.Steps.{step_of};
ghost use Rattle.listing.specs.Counting.{Counted};

use words::{Step, fields, steps};

// A counter for each clause number that a step can hold, at first zero.
pub fn count(offered: &[u32], copies: &mut [u32])
    requires { (length offered.now ≤ 199) × (copies.old ≡ replicate 512 0) }
    ensures { Counted (map step_of offered.now) copies.new }
{
    for word in offered {
        let Step::Extension(clause, _) = steps::decode(*word) else {
            continue;
        };
        let number = fields::wide(clause);
        copies[number] += 1;
    }
}
