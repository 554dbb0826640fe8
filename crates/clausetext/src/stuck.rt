// For the people who read a refusal: what was wanted where a text goes wrong, and where the name of a question stands.
ghost use Rattle.std.specs.Prelude.{◌≡◌};
ghost use Rattle.clausetext.specs.Judging.{start};
ghost use Rattle.clausetext.specs.Stuck.{stuck_in, name_begun, question_from};

use crate::judge::{Mode, State, Want, advance};

fn beginning() -> State
    ensures { result ≡ start }
{
    State {
        want: Want::Clause,
        mode: Mode::Between,
        clauses: 0,
        questions: 0,
    }
}

#[tactic(auto, using(crate::proofs::StuckLoop::follow_laws))]
// The state in which a text cannot go on, or in which it ends.
pub fn stuck_in(text: &[u8]) -> State
    ensures { result ≡ stuck_in start text.now }
{
    let mut s = beginning();
    for c in text {
        let Some(next) = advance(s, *c) else {
            return s;
        };
        s = next;
    }
    s
}

// A place where a clause's name is still wanted may be the name's first byte.
fn name_begun(want: Want, at: usize, name: usize) -> usize
    ensures { result ≡ name_begun want at name }
{
    if matches!(want, Want::Name) { at } else { name }
}

#[tactic(auto, using(crate::proofs::StuckLoop::seek_laws))]
// Where the name of the clause begins that is the so-many-th question, counted from 1; where the text ends or goes wrong if there is none.
pub fn question_name(text: &[u8], many: usize) -> usize
    ensures { result ≡ question_from many start 0 0 text.now }
{
    let mut s = beginning();
    let mut name = 0;
    for (at, c) in text.iter().enumerate() {
        let Some(next) = advance(s, *c) else {
            return at;
        };
        name = name_begun(s.want, at, name);
        if next.questions == many {
            return name;
        }
        s = next;
    }
    text.len()
}
