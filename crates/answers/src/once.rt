// Copies of the question that say what an earlier one says: compared under what is bound, without writing them.
ghost use Rattle.std.specs.Prelude.{◌≡◌, length};
ghost use Rattle.rules.specs.Answer.{same_literal, same_disjunct};
ghost use Rattle.unification.specs.State.{start_at, copies_of, ClauseAt};
ghost use Rattle.unification.specs.Good.{Good, Alike};
ghost use Rattle.answers.specs.Writing.{disjunct_at};
ghost use Rattle.answers.specs.Repeats.{said_at, Compared, Twins, said_before, Next, Weighed, Chose};

use unification::{memory, unify};
use words::fields;

// Whether two literals' atoms are equal under what is bound: they can be made equal, and nothing is bound for it.
fn same_atom(file: &[u32], work: &mut [u32], left: u32, right: u32) -> bool
    requires { Good file.now work.old × Alike file.now work.old left right }
    ensures { Compared file.now work.old work.new result (same_literal (said_at file.now work.old left) (said_at file.now work.old right)) }
{
    let kept = work[memory::COUNT];
    let met = unify::meet_atoms(file, work, left, right);
    let bound = work[memory::COUNT];
    unify::undo(work, kept);
    let Ok(()) = met else {
        return false;
    };
    if bound != kept {
        return false;
    }
    true
}

// Whether two copies of one clause say the same, literal by literal.
fn same_disjunct(file: &[u32], work: &mut [u32], copy: u32, other: u32) -> bool
    requires { Twins file.now work.old copy other }
    ensures { Compared file.now work.old work.new result (same_disjunct (disjunct_at file.now work.old copy) (disjunct_at file.now work.old other)) }
{
    let own = copy * 256;
    let count = fields::following(memory::word_at(file, work, own));
    for offset in 1..count + 1 {
        if fields::kind(memory::word_at(file, work, own + offset)) != 2 {
            continue;
        }
        if !same_atom(file, work, own + offset, other * 256 + offset) {
            return false;
        }
    }
    true
}

// Whether a kept copy before this one says the same.
fn said_before(file: &[u32], work: &mut [u32], copy: u32) -> bool
    requires { Next file.now work.old (start_at work.old copy) copy }
    ensures { Compared file.now work.old work.new result (said_before file.now work.old copy) }
{
    for earlier in (0..copy).rev() {
        if work[memory::KEPT + fields::wide(earlier)] == 0 {
            continue;
        }
        if same_disjunct(file, work, copy, earlier) {
            return true;
        }
    }
    false
}

// 1 where a copy is kept: a copy of the question that says what no kept one before it says. A number, since it goes into a work word.
fn weigh(file: &[u32], work: &mut [u32], question: u32, copy: u32) -> u32
    requires { Next file.now work.old question copy }
    ensures { Weighed file.now work.old work.new question copy result }
{
    if work[memory::STARTS + fields::wide(copy)] != question {
        return 0;
    }
    if said_before(file, work, copy) {
        return 0;
    }
    1
}

// Which copies are kept is noted: the question's, each that says what no earlier one says.
pub fn choose(file: &[u32], work: &mut [u32], question: u32)
    requires { Good file.now work.old }
    ensures { Chose file.now work.old work.new question }
{
    for copy in 0..work[memory::COPIES] {
        let kept = weigh(file, work, question, copy);
        work[memory::KEPT + fields::wide(copy)] = kept;
    }
}
