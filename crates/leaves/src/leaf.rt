// Which leaf a step treats.
ghost use Rattle.std.specs.Prelude.{◌≡◌, ◌-◌, ◌<◌, get_or};
ghost use Rattle.words.specs.Steps.{step_of};
ghost use Rattle.leaves.specs.Leaves.{opens, other, hung, started, leftmost, hung_under, above, ancestor};

use words::Step;
use words::fields::wide;
use words::steps::decode;

// An open leaf: the number of the step that hung it, its clause and its literal.
#[derive(Clone, Copy, Debug, PartialEq, Eq)]
pub struct Leaf {
    pub number: u32,
    pub clause: u32,
    pub literal: u32,
}

// The element at a place; 0 past the end.
pub fn at(list: &[u32], place: u32) -> u32
    ensures { result ≡ get_or list.now place 0 }
{
    let i = wide(place);
    if list.len() <= i {
        return 0;
    }
    list[i]
}

// How many leaves a step hangs.
fn opens(sizes: &[u32], w: u32) -> u32
    ensures { result ≡ opens sizes.now (step_of w) }
{
    match decode(w) {
        Step::Extension(clause, _) => at(sizes, clause).saturating_sub(1),
        Step::Reduction(_) | Step::Restart | Step::Malformed => 0,
    }
}

fn other(entered: u32, n: u32) -> u32
    requires { n < 4294967295 }
    ensures { result ≡ other entered n }
{
    if n < entered {
        return n;
    }
    n + 1
}

fn hung(number: u32, n: u32, w: u32) -> Option<Leaf>
    requires { n < 4294967295 }
    ensures { result ≡ hung number n (step_of w) }
{
    match decode(w) {
        Step::Extension(clause, entered) => Some(Leaf {
            number,
            clause,
            literal: other(entered, n),
        }),
        Step::Reduction(_) | Step::Restart | Step::Malformed => None,
    }
}

fn started(sizes: &[u32], question: u32, n: u32) -> Option<Leaf>
    ensures { result ≡ started sizes.now question n }
{
    if n < at(sizes, question) {
        return Some(Leaf {
            number: 0,
            clause: question,
            literal: n,
        });
    }
    None
}

// The leftmost open leaf after so many steps.
pub fn leftmost(sizes: &[u32], question: u32, steps: &[u32], done: u32) -> Option<Leaf>
    ensures { result ≡ leftmost sizes.now question steps.now done }
{
    let mut n: u32 = 0;
    for i in (0..done).rev() {
        let w = at(steps, i);
        let many = opens(sizes, w);
        if n < many {
            return hung(i + 1, n, w);
        }
        n = n - many + 1;
    }
    started(sizes, question, n)
}

fn hung_under(sizes: &[u32], question: u32, steps: &[u32], number: u32) -> Option<Leaf>
    ensures { result ≡ hung_under sizes.now question steps.now number }
{
    if number == 0 {
        return None;
    }
    leftmost(sizes, question, steps, number - 1)
}

fn above(sizes: &[u32], question: u32, steps: &[u32], leaf: Option<Leaf>) -> Option<Leaf>
    ensures { result ≡ above sizes.now question steps.now leaf }
{
    hung_under(sizes, question, steps, leaf?.number)
}

// The ancestor at a height: 1 is the leaf's parent.
pub fn ancestor(
    sizes: &[u32],
    question: u32,
    steps: &[u32],
    height: u32,
    leaf: Option<Leaf>,
) -> Option<Leaf>
    ensures { result ≡ ancestor sizes.now question steps.now height leaf }
{
    let mut reached = leaf;
    for _ in 0..height {
        reached = above(sizes, question, steps, reached);
    }
    reached
}
