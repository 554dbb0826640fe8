// What is said of a partner's proof.
ghost use Rattle.std.specs.Prelude.{◌++◌, ◌≡◌, ◌+◌, ◌≤◌, ◌<◌, length, get_or};
ghost use Rattle.text.specs.Put.{Put};
ghost use Rattle.words.specs.Steps.{step_of};
ghost use Rattle.leaves.specs.Shown.{question_in};
ghost use Rattle.verdicts.specs.Verdicts.{cost_text, accepted_text, too_long_text, hung_text, clause_shown, of_text, there_text, leaf_text, entered_leaf, partner, partner_label, fault_text, fitting, pair_text, against_text, why_text, reason_text, pair_shown, step_shown, head_text, wrong_step, open_text, refused_with, refused_text};

use leaves::leaf::Leaf;
use leaves::{bound, leaf, shown};
use text::{part, put};
use words::fields::wide;
use words::steps::decode;
use words::{Step, fields};

fn cost(steps: u32, out: &mut [u8], from: usize) -> usize
    ensures { Put out.old from (cost_text steps) out.new result }
{
    let a = put::field(out, from, b" (steps ", steps);
    put::bytes(out, a, b")\n")
}

// Accepted, with an answer that is definite or has alternatives.
pub fn accepted(disjuncts: u32, steps: u32, out: &mut [u8], from: usize) -> usize
    ensures { Put out.old from (accepted_text disjuncts steps) out.new result }
{
    if disjuncts == 1 {
        let a = put::bytes(out, from, b"Accepted: a definite answer");
        return cost(steps, out, a);
    }
    let a = put::field(out, from, b"Accepted: an answer with ", disjuncts);
    let b = put::bytes(out, a, b" alternatives, not definite");
    cost(steps, out, b)
}

pub fn too_long(steps: u32, out: &mut [u8], from: usize) -> usize
    ensures { Put out.old from (too_long_text steps) out.new result }
{
    let a = put::bytes(
        out,
        from,
        b"Accepted: an answer too long to be shown, over 4096 words",
    );
    cost(steps, out, a)
}

// Where a copy was hung.
fn hung(number: u32, out: &mut [u8], from: usize) -> usize
    ensures { Put out.old from (hung_text number) out.new result }
{
    if number == 0 {
        return put::bytes(out, from, b", hung at the start\n");
    }
    let a = put::field(out, from, b", hung by step ", number);
    put::byte(out, a, b'\n')
}

// A clause by its name and its number.
fn clause(
    text: &[u8],
    index: &[u32],
    file: &[u32],
    bound: &[u32],
    number: u32,
    out: &mut [u8],
    from: usize,
) -> usize
    requires { length index.now ≡ 16896 }
    ensures { Put out.old from (clause_shown (record { text = text.now; index = index.now; file = file.now; bound = bound.now }) number) out.new result }
{
    let a = shown::name_cut(text, index, number, out, from);
    let b = put::field(out, a, b" (clause ", number);
    put::byte(out, b, b')')
}

// Which literal of which clause it is, and where that was hung.
fn of(
    text: &[u8],
    index: &[u32],
    file: &[u32],
    bound: &[u32],
    number: u32,
    own: u32,
    literal: u32,
    out: &mut [u8],
    from: usize,
) -> usize
    requires { length index.now ≡ 16896 }
    ensures { Put out.old from (of_text (record { text = text.now; index = index.now; file = file.now; bound = bound.now }) number own literal) out.new result }
{
    let a = put::field(out, from, b", literal ", literal);
    let b = put::bytes(out, a, b" of ");
    let c = clause(text, index, file, bound, own, out, b);
    hung(number, out, c)
}

// What its variables are bound to there.
fn there(
    text: &[u8],
    index: &[u32],
    file: &[u32],
    bound: &[u32],
    steps: &[u32],
    number: u32,
    own: u32,
    literal: u32,
    out: &mut [u8],
    from: usize,
) -> usize
    requires { length index.now ≡ 16896 }
    ensures { Put out.old from (there_text (record { text = text.now; index = index.now; file = file.now; bound = bound.now }) steps.now number own literal) out.new result }
{
    let copy = bound::copy_number(steps, number);
    bound::told(
        text,
        index,
        file,
        bound,
        b"  there: ",
        b"\n",
        copy,
        own,
        literal,
        out,
        from,
    )
}

// A literal of a copy, after a label.
fn leaf_line(
    text: &[u8],
    index: &[u32],
    file: &[u32],
    bound: &[u32],
    steps: &[u32],
    label: &[u8],
    leaf: Option<Leaf>,
    out: &mut [u8],
    from: usize,
) -> usize
    requires { length index.now ≡ 16896 }
    ensures { Put out.old from (leaf_text (record { text = text.now; index = index.now; file = file.now; bound = bound.now }) steps.now label.now leaf) out.new result }
{
    let a = put::bytes(out, from, label);
    let Some(leaf) = leaf else {
        return put::bytes(out, a, b"there is none\n");
    };
    let b = shown::literal(text, index, file, leaf.clause, leaf.literal, out, a);
    let c = of(
        text,
        index,
        file,
        bound,
        leaf.number,
        leaf.clause,
        leaf.literal,
        out,
        b,
    );
    there(
        text,
        index,
        file,
        bound,
        steps,
        leaf.number,
        leaf.clause,
        leaf.literal,
        out,
        c,
    )
}

fn entered(sizes: &[u32], number: u32, clause: u32, literal: u32) -> Option<Leaf>
    ensures { result ≡ entered_leaf sizes.now number clause literal }
{
    if literal < leaf::at(sizes, clause) {
        return Some(Leaf {
            number,
            clause,
            literal,
        });
    }
    None
}

// What a step closes its leaf against.
fn partner(sizes: &[u32], question: u32, steps: &[u32], done: u32, w: u32) -> Option<Leaf>
    requires { done < 4294967295 }
    ensures { result ≡ partner sizes.now question steps.now done (step_of w) }
{
    match decode(w) {
        Step::Reduction(height) => {
            let leaf = leaf::leftmost(sizes, question, steps, done);
            leaf::ancestor(sizes, question, steps, height, leaf)
        }
        Step::Extension(clause, literal) => entered(sizes, done + 1, clause, literal),
        Step::Restart | Step::Malformed => None,
    }
}

fn partner_line(
    text: &[u8],
    index: &[u32],
    file: &[u32],
    bound: &[u32],
    steps: &[u32],
    w: u32,
    leaf: Option<Leaf>,
    out: &mut [u8],
    from: usize,
) -> usize
    requires { length index.now ≡ 16896 }
    ensures { Put out.old from (leaf_text (record { text = text.now; index = index.now; file = file.now; bound = bound.now }) steps.now (partner_label (step_of w)) leaf) out.new result }
{
    match decode(w) {
        Step::Reduction(_) => leaf_line(
            text,
            index,
            file,
            bound,
            steps,
            b"ancestor: ",
            leaf,
            out,
            from,
        ),
        Step::Extension(_, _) => leaf_line(
            text,
            index,
            file,
            bound,
            steps,
            b"clause: ",
            leaf,
            out,
            from,
        ),
        Step::Restart | Step::Malformed => leaf_line(
            text,
            index,
            file,
            bound,
            steps,
            b"literal: ",
            leaf,
            out,
            from,
        ),
    }
}

fn fault(status: u32, out: &mut [u8], from: usize) -> usize
    ensures { Put out.old from (fault_text status) out.new result }
{
    if status == 12 {
        return put::bytes(out, from, b" is no step\n");
    }
    if status == 14 {
        return put::bytes(
            out,
            from,
            b" is a clash: under what is bound so far the two literals have different symbols in one place\n",
        );
    }
    if status == 20 {
        return put::bytes(
            out,
            from,
            b" is a circle: under what is bound so far a variable would stand for a term that holds it\n",
        );
    }
    put::bytes(out, from, b" is not possible\n")
}

// A fitting pair has opposite signs, the same predicate and as many arguments.
#[tactic(auto, unfolding(crate::specs::Verdicts::fitting))]
fn fitting(v: u32, w: u32) -> bool
    ensures { result ≡ fitting v w }
{
    fields::sign(v) != fields::sign(w)
        && fields::symbol(v) == fields::symbol(w)
        && fields::arity(v) == fields::arity(w)
}

fn pair(limit: u32, fits: bool, out: &mut [u8], from: usize) -> usize
    ensures { Put out.old from (pair_text limit fits) out.new result }
{
    if fits {
        let a = put::field(out, from, b"The limit is reached: ", limit);
        return put::bytes(out, a, b" clauses may be used.\n");
    }
    put::bytes(
        out,
        from,
        b"The two literals do not fit: a pair has opposite signs, the same predicate and as many arguments.\n",
    )
}

fn against(
    file: &[u32],
    limit: u32,
    clause: u32,
    literal: u32,
    to: Option<Leaf>,
    out: &mut [u8],
    from: usize,
) -> usize
    ensures { Put out.old from (against_text file.now limit clause literal to) out.new result }
{
    let Some(to) = to else {
        return put::bytes(
            out,
            from,
            b"There is no such clause, literal or ancestor.\n",
        );
    };
    let fits = fitting(
        shown::literal_word(file, clause, literal),
        shown::literal_word(file, to.clause, to.literal),
    );
    pair(limit, fits, out, from)
}

// Why a step is not possible.
fn why(
    file: &[u32],
    limit: u32,
    leaf: Option<Leaf>,
    to: Option<Leaf>,
    out: &mut [u8],
    from: usize,
) -> usize
    ensures { Put out.old from (why_text file.now limit leaf to) out.new result }
{
    match leaf {
        Some(leaf) => against(file, limit, leaf.clause, leaf.literal, to, out, from),
        None => put::bytes(out, from, b"All leaves are closed already.\n"),
    }
}

fn reason(
    status: u32,
    file: &[u32],
    limit: u32,
    leaf: Option<Leaf>,
    to: Option<Leaf>,
    out: &mut [u8],
    from: usize,
) -> usize
    ensures { Put out.old from (reason_text status file.now limit leaf to) out.new result }
{
    if status == 13 {
        return why(file, limit, leaf, to, out, from);
    }
    from
}

// The step as a readable proof has it.
fn step_shown(
    text: &[u8],
    index: &[u32],
    steps: &[u32],
    done: u32,
    out: &mut [u8],
    from: usize,
) -> usize
    ensures { Put out.old from (step_shown text.now index.now steps.now done) out.new result }
{
    let own = part::front(part::rest(steps, wide(done)), 1);
    let places = part::rest(index, 8192);
    let a = put::bytes(out, from, b"  ");
    written_proofs::write::proof(text, places, own, out, a)
}

// The number of the step, what is wrong, and the step.
fn head(
    text: &[u8],
    index: &[u32],
    steps: &[u32],
    status: u32,
    done: u32,
    out: &mut [u8],
    from: usize,
) -> usize
    requires { done < 4294967295 }
    ensures { Put out.old from (head_text text.now index.now steps.now status done) out.new result }
{
    let a = put::field(out, from, b"Not accepted: step ", done + 1);
    let b = fault(status, out, a);
    step_shown(text, index, steps, done, out, b)
}

// A step's leaf and what it is closed against.
fn pair_lines(
    text: &[u8],
    index: &[u32],
    file: &[u32],
    bound: &[u32],
    steps: &[u32],
    w: u32,
    leaf: Option<Leaf>,
    to: Option<Leaf>,
    out: &mut [u8],
    from: usize,
) -> usize
    requires { length index.now ≡ 16896 }
    ensures { Put out.old from (pair_shown (record { text = text.now; index = index.now; file = file.now; bound = bound.now }) steps.now (step_of w) leaf to) out.new result }
{
    let a = leaf_line(text, index, file, bound, steps, b"leaf: ", leaf, out, from);
    partner_line(text, index, file, bound, steps, w, to, out, a)
}

// The first step that is wrong.
fn wrong_step(
    text: &[u8],
    index: &[u32],
    file: &[u32],
    bound: &[u32],
    steps: &[u32],
    limit: u32,
    status: u32,
    done: u32,
    w: u32,
    leaf: Option<Leaf>,
    to: Option<Leaf>,
    out: &mut [u8],
    from: usize,
) -> usize
    requires { (length index.now ≡ 16896) × (done < 4294967295) }
    ensures { Put out.old from (wrong_step (record { text = text.now; index = index.now; file = file.now; bound = bound.now }) steps.now limit status done (step_of w) leaf to) out.new result }
{
    let a = head(text, index, steps, status, done, out, from);
    let b = pair_lines(text, index, file, bound, steps, w, leaf, to, out, a);
    reason(status, file, limit, leaf, to, out, b)
}

// The steps end with leaves open.
fn open(
    text: &[u8],
    index: &[u32],
    file: &[u32],
    bound: &[u32],
    steps: &[u32],
    leaf: Option<Leaf>,
    done: u32,
    out: &mut [u8],
    from: usize,
) -> usize
    requires { length index.now ≡ 16896 }
    ensures { Put out.old from (open_text (record { text = text.now; index = index.now; file = file.now; bound = bound.now }) steps.now leaf done) out.new result }
{
    let a = put::field(
        out,
        from,
        b"Not accepted: leaves are open after the last step, ",
        done,
    );
    let b = put::bytes(out, a, b"; the leftmost:\n");
    leaf_line(text, index, file, bound, steps, b"leaf: ", leaf, out, b)
}

fn refused_with(
    text: &[u8],
    index: &[u32],
    file: &[u32],
    bound: &[u32],
    sizes: &[u32],
    steps: &[u32],
    limit: u32,
    status: u32,
    done: u32,
    out: &mut [u8],
    from: usize,
) -> usize
    requires { (length index.now ≡ 16896) × (done < 4294967295) }
    ensures { Put out.old from (refused_with (record { text = text.now; index = index.now; file = file.now; bound = bound.now }) sizes.now (question_in file.now) steps.now limit status done) out.new result }
{
    let question = shown::question(file);
    let leaf = leaf::leftmost(sizes, question, steps, done);
    if status == 15 {
        return open(text, index, file, bound, steps, leaf, done, out, from);
    }
    let w = leaf::at(steps, done);
    let to = partner(sizes, question, steps, done, w);
    wrong_step(
        text, index, file, bound, steps, limit, status, done, w, leaf, to, out, from,
    )
}

// What is said where the checker refuses a proof with a status and a place.
pub fn refused(
    text: &[u8],
    index: &[u32],
    file: &[u32],
    bound: &[u32],
    steps: &[u32],
    limit: u32,
    status: u32,
    place: u32,
    out: &mut [u8],
    from: usize,
) -> usize
    requires { (length index.now ≡ 16896) × (place < 4294967295) }
    ensures { Put out.old from (refused_text (record { text = text.now; index = index.now; file = file.now; bound = bound.now }) steps.now limit status place) out.new result }
{
    let mut sizes = [0u32; 512];
    shown::sizes(file, &mut sizes);
    refused_with(
        text, index, file, bound, &sizes, steps, limit, status, place, out, from,
    )
}
