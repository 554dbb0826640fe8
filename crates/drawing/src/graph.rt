// A closed tableau as Graphviz text.
ghost use Rattle.std.specs.Prelude.{◌++◌, ◌≡◌, suc, ◌+◌, ◌≤◌, ◌<◌, length, get_or, take};
ghost use Rattle.text.specs.Put.{Put};
ghost use Rattle.words.specs.Steps.{step_of};
ghost use Rattle.leaves.specs.Shown.{sizes_in, question_in};
ghost use Rattle.drawing.specs.Graph.{node_text, label_text, literal_line, literal_lines, box_text, copy_text, stroke_text, between_text, line_text, lines_text, under_text, arrow_text, reduction_text, step_drawn, steps_drawn, copies_text, tableau_text, draw_text};

use leaves::leaf::Leaf;
use leaves::{bound, leaf, shown};
use text::{part, put};
use words::Step;
use words::steps::decode;

fn node(number: u32, literal: u32, out: &mut [u8], from: usize) -> usize
    ensures { Put out.old from (node_text number literal) out.new result }
{
    let a = put::field(out, from, b"n", number);
    put::field(out, a, b"_", literal)
}

fn label(
    text: &[u8],
    index: &[u32],
    file: &[u32],
    bound: &[u32],
    made: u32,
    clause: u32,
    literal: u32,
    out: &mut [u8],
    from: usize,
) -> usize
    requires { length index.now ≡ 16896 }
    ensures { Put out.old from (label_text (record { text = text.now; index = index.now; file = file.now; bound = bound.now }) made clause literal) out.new result }
{
    let a = put::bytes(out, from, b" [label=\"");
    let b = shown::literal_cut(text, index, file, clause, literal, out, a);
    let c = bound::told(
        text, index, file, bound, b"\\n", b"", made, clause, literal, out, b,
    );
    put::bytes(out, c, b"\"];\n")
}

// A literal in its copy's box.
fn literal_line(
    text: &[u8],
    index: &[u32],
    file: &[u32],
    bound: &[u32],
    number: u32,
    made: u32,
    clause: u32,
    literal: u32,
    out: &mut [u8],
    from: usize,
) -> usize
    requires { length index.now ≡ 16896 }
    ensures { Put out.old from (literal_line (record { text = text.now; index = index.now; file = file.now; bound = bound.now }) number made clause literal) out.new result }
{
    let a = put::bytes(out, from, b"    ");
    let b = node(number, literal, out, a);
    label(text, index, file, bound, made, clause, literal, out, b)
}

fn literal_lines(
    text: &[u8],
    index: &[u32],
    file: &[u32],
    bound: &[u32],
    number: u32,
    made: u32,
    clause: u32,
    size: u32,
    out: &mut [u8],
    from: usize,
) -> usize
    requires { length index.now ≡ 16896 }
    ensures { Put out.old from (literal_lines (record { text = text.now; index = index.now; file = file.now; bound = bound.now }) number made clause 0 size) out.new result }
{
    let mut at = from;
    for literal in 0..size {
        at = literal_line(
            text, index, file, bound, number, made, clause, literal, out, at,
        );
    }
    at
}

fn box_head(
    text: &[u8],
    index: &[u32],
    number: u32,
    clause: u32,
    out: &mut [u8],
    from: usize,
) -> usize
    requires { length index.now ≡ 16896 }
    ensures { Put out.old from (box_text text.now index.now number clause) out.new result }
{
    let a = put::field(out, from, b"  subgraph cluster_", number);
    let b = put::bytes(out, a, b" {\n    label=\"");
    let c = shown::name_cut(text, index, clause, out, b);
    put::bytes(out, c, b"\";\n")
}

// The box of a copy of a clause.
fn copy(
    text: &[u8],
    index: &[u32],
    file: &[u32],
    bound: &[u32],
    number: u32,
    made: u32,
    clause: u32,
    size: u32,
    out: &mut [u8],
    from: usize,
) -> usize
    requires { length index.now ≡ 16896 }
    ensures { Put out.old from (copy_text (record { text = text.now; index = index.now; file = file.now; bound = bound.now }) number made clause size) out.new result }
{
    let a = box_head(text, index, number, clause, out, from);
    let b = literal_lines(text, index, file, bound, number, made, clause, size, out, a);
    put::bytes(out, b, b"  }\n")
}

// The closed pair's line is bold.
fn stroke(pair: bool, out: &mut [u8], from: usize) -> usize
    ensures { Put out.old from (stroke_text pair) out.new result }
{
    if pair {
        return put::bytes(out, from, b" [style=bold];\n");
    }
    put::bytes(out, from, b";\n")
}

// From a literal to another.
fn between(number: u32, literal: u32, below: u32, other: u32, out: &mut [u8], from: usize) -> usize
    ensures { Put out.old from (between_text number literal below other) out.new result }
{
    let a = put::bytes(out, from, b"  ");
    let b = node(number, literal, out, a);
    let c = put::bytes(out, b, b" -> ");
    node(below, other, out, c)
}

// From a leaf to a literal of the copy under it.
fn line(
    number: u32,
    literal: u32,
    below: u32,
    entered: u32,
    other: u32,
    out: &mut [u8],
    from: usize,
) -> usize
    ensures { Put out.old from (line_text number literal below entered other) out.new result }
{
    let a = between(number, literal, below, other, out, from);
    stroke(other == entered, out, a)
}

fn lines(
    number: u32,
    literal: u32,
    below: u32,
    entered: u32,
    size: u32,
    out: &mut [u8],
    from: usize,
) -> usize
    ensures { Put out.old from (lines_text number literal below entered 0 size) out.new result }
{
    let mut at = from;
    for other in 0..size {
        at = line(number, literal, below, entered, other, out, at);
    }
    at
}

fn under(
    leaf: Option<Leaf>,
    below: u32,
    entered: u32,
    size: u32,
    out: &mut [u8],
    from: usize,
) -> usize
    ensures { Put out.old from (under_text leaf below entered size) out.new result }
{
    match leaf {
        Some(leaf) => lines(leaf.number, leaf.literal, below, entered, size, out, from),
        None => from,
    }
}

fn arrow(number: u32, literal: u32, to: Option<Leaf>, out: &mut [u8], from: usize) -> usize
    ensures { Put out.old from (arrow_text number literal to) out.new result }
{
    let Some(to) = to else {
        return from;
    };
    let a = between(number, literal, to.number, to.literal, out, from);
    put::bytes(
        out,
        a,
        b" [style=dashed, arrowhead=normal, constraint=false];\n",
    )
}

// A reduction's arrow.
fn reduction(leaf: Option<Leaf>, to: Option<Leaf>, out: &mut [u8], from: usize) -> usize
    ensures { Put out.old from (reduction_text leaf to) out.new result }
{
    match leaf {
        Some(leaf) => arrow(leaf.number, leaf.literal, to, out, from),
        None => from,
    }
}

// The copy that a step hangs, and the lines to it.
fn extension(
    text: &[u8],
    index: &[u32],
    file: &[u32],
    bound: &[u32],
    leaf: Option<Leaf>,
    number: u32,
    made: u32,
    clause: u32,
    entered: u32,
    size: u32,
    out: &mut [u8],
    from: usize,
) -> usize
    requires { length index.now ≡ 16896 }
    ensures { Put out.old from (copy_text (record { text = text.now; index = index.now; file = file.now; bound = bound.now }) number made clause size ++ under_text leaf number entered size) out.new result }
{
    let a = copy(
        text, index, file, bound, number, made, clause, size, out, from,
    );
    under(leaf, number, entered, size, out, a)
}

fn step(
    text: &[u8],
    index: &[u32],
    file: &[u32],
    bound: &[u32],
    sizes: &[u32],
    question: u32,
    steps: &[u32],
    done: u32,
    out: &mut [u8],
    from: usize,
) -> usize
    requires { (length index.now ≡ 16896) × (done < 4294967295) }
    ensures { Put out.old from (step_drawn (record { text = text.now; index = index.now; file = file.now; bound = bound.now }) sizes.now question steps.now done (step_of (get_or steps.now done 0))) out.new result }
{
    let leaf = leaf::leftmost(sizes, question, steps, done);
    match decode(leaf::at(steps, done)) {
        Step::Reduction(height) => reduction(
            leaf,
            leaf::ancestor(sizes, question, steps, height, leaf),
            out,
            from,
        ),
        Step::Extension(clause, entered) => extension(
            text,
            index,
            file,
            bound,
            leaf,
            done + 1,
            bound::copy_number(steps, done + 1),
            clause,
            entered,
            leaf::at(sizes, clause),
            out,
            from,
        ),
        Step::Restart => from,
        Step::Malformed => from,
    }
}

fn steps_drawn(
    text: &[u8],
    index: &[u32],
    file: &[u32],
    bound: &[u32],
    sizes: &[u32],
    question: u32,
    steps: &[u32],
    out: &mut [u8],
    from: usize,
) -> usize
    requires { (length index.now ≡ 16896) × (length steps.now ≤ 199) }
    ensures { Put out.old from (steps_drawn (record { text = text.now; index = index.now; file = file.now; bound = bound.now }) sizes.now question steps.now 0 (length steps.now)) out.new result }
{
    let mut at = from;
    for i in 0..steps.len() {
        at = step(
            text, index, file, bound, sizes, question, steps, i as u32, out, at,
        );
    }
    at
}

// The start's copy, and what the steps hang.
fn copies(
    text: &[u8],
    index: &[u32],
    file: &[u32],
    bound: &[u32],
    sizes: &[u32],
    question: u32,
    steps: &[u32],
    out: &mut [u8],
    from: usize,
) -> usize
    requires { (length index.now ≡ 16896) × (length steps.now ≤ 199) }
    ensures { Put out.old from (copies_text (record { text = text.now; index = index.now; file = file.now; bound = bound.now }) sizes.now question steps.now) out.new result }
{
    let size = leaf::at(sizes, question);
    let a = copy(text, index, file, bound, 0, 0, question, size, out, from);
    steps_drawn(text, index, file, bound, sizes, question, steps, out, a)
}

fn tableau(
    text: &[u8],
    index: &[u32],
    file: &[u32],
    bound: &[u32],
    sizes: &[u32],
    question: u32,
    steps: &[u32],
    out: &mut [u8],
    from: usize,
) -> usize
    requires { (length index.now ≡ 16896) × (length steps.now ≤ 199) }
    ensures { Put out.old from (tableau_text (record { text = text.now; index = index.now; file = file.now; bound = bound.now }) sizes.now question steps.now) out.new result }
{
    let a = put::bytes(
        out,
        from,
        b"digraph tableau {\n  ordering=out;\n  node [shape=box];\n  edge [arrowhead=none];\n",
    );
    let b = copies(text, index, file, bound, sizes, question, steps, out, a);
    put::bytes(out, b, b"}\n")
}

// The tableau that the steps of a proof make.
pub fn draw(
    text: &[u8],
    index: &[u32],
    file: &[u32],
    bound: &[u32],
    steps: &[u32],
    out: &mut [u8],
    from: usize,
) -> usize
    requires { length index.now ≡ 16896 }
    ensures { Put out.old from (draw_text (record { text = text.now; index = index.now; file = file.now; bound = bound.now }) steps.now) out.new result }
{
    let mut sizes = [0u32; 512];
    shown::sizes(file, &mut sizes);
    tableau(
        text,
        index,
        file,
        bound,
        &sizes,
        shown::question(file),
        part::front(steps, 199),
        out,
        from,
    )
}
