// The answers as tuples: a line for other tools, in the words of the SZS ontology.
#![tactic(auto)]

ghost use Rattle.std.specs.Prelude.{◌≡◌, [], ◌++◌, ◌+◌, ◌≤◌, min, length};
ghost use Rattle.text.specs.Put.{Put};
ghost use Rattle.naming.specs.Shown.{names_in, shown};
ghost use Rattle.tuples.specs.Tuples.{span_of, width, is_next, tuples_in, comma_text, open_text, each_text, tuples_text, line_text, answers_text, Walked};

use naming::show;
use text::{part, put};
use words::fields;
use words::fields::wide;

// How far a disjunct's words go, and how far the text.
#[derive(Clone, Copy, Debug, PartialEq, Eq)]
pub struct Told {
    pub own: usize,
    pub byte: usize,
}

// How many words the term at the front has.
fn term_size(own: &[u32]) -> usize
    requires { length own.now ≤ 4096 }
    ensures { result ≡ span_of own.now 1 }
{
    let mut terms = 1;
    for (at, w) in own.iter().enumerate() {
        if terms == 0 {
            return at;
        }
        terms = terms - 1 + wide(fields::arity(*w));
    }
    own.len()
}

// How many words stand where the question has a word.
fn width(q: u32, own: &[u32]) -> usize
    requires { length own.now ≤ 4096 }
    ensures { result ≡ width q own.now }
{
    if fields::kind(q) == 0 {
        return term_size(own);
    }
    1
}

// The next variable's first use.
fn first_use(q: u32, count: usize) -> bool
    ensures { result ≡ is_next q count }
{
    fields::kind(q) == 0 && wide(fields::number(q)) == count
}

fn onward(at: usize, size: usize, end: usize) -> usize
    requires { at ≤ end }
    ensures { result ≡ min (at + size) end }
{
    at.saturating_add(size).min(end)
}

fn comma(before: usize, out: &mut [u8], at: usize) -> usize
    ensures { Put out.old at (comma_text before) out.new result }
{
    if before == 0 {
        return at;
    }
    put::byte(out, at, b',')
}

// A variable's term, after so many others.
fn term(text: &[u8], index: &[u32], own: &[u32], before: usize, out: &mut [u8], at: usize) -> usize
    requires { (length index.now ≡ 16896) × (length own.now ≤ 4096) }
    ensures { Put out.old at (comma_text before ++ shown (names_in text.now index.now []) 0 0 [] own.now) out.new result }
{
    let a = comma(before, out, at);
    show::words(text, index, &index[0..0], 0, own, out, a)
}

// The terms of one disjunct, which begins at a place of the answer's words.
fn disjunct(
    text: &[u8],
    index: &[u32],
    question: &[u32],
    own: &[u32],
    from: usize,
    out: &mut [u8],
    start: usize,
) -> Told
    requires { (length index.now ≡ 16896) × (length own.now ≤ 4096) × (from ≤ length own.now) }
    ensures { Walked (names_in text.now index.now []) question.now own.now from out.old start out.new result }
{
    let mut count = 0;
    let mut at = from;
    let mut byte = start;
    for q in question {
        let left = part::rest(own, at);
        let size = width(*q, left);
        at = onward(at, size, own.len());
        if !first_use(*q, count) {
            continue;
        }
        byte = term(text, index, part::front(left, size), count, out, byte);
        count += 1;
    }
    Told { own: at, byte }
}

fn bracket(before: usize, out: &mut [u8], at: usize) -> usize
    ensures { Put out.old at (open_text before) out.new result }
{
    if before == 0 {
        return put::byte(out, at, b'[');
    }
    put::bytes(out, at, b"|[")
}

// The tuples of so many disjuncts.
fn each(
    text: &[u8],
    index: &[u32],
    disjuncts: usize,
    question: &[u32],
    own: &[u32],
    out: &mut [u8],
    start: usize,
) -> usize
    requires { (length index.now ≡ 16896) × (length own.now ≤ 4096) }
    ensures { Put out.old start (each_text (names_in text.now index.now []) 0 (tuples_in disjuncts question.now own.now)) out.new result }
{
    let mut at = 0;
    let mut byte = start;
    for done in 0..disjuncts {
        let opened = bracket(done, out, byte);
        let told = disjunct(text, index, question, own, at, out, opened);
        byte = put::byte(out, told.byte, b']');
        at = told.own;
    }
    byte
}

// Several alternatives stand in parentheses.
fn tuples(
    text: &[u8],
    index: &[u32],
    disjuncts: usize,
    question: &[u32],
    own: &[u32],
    out: &mut [u8],
    at: usize,
) -> usize
    requires { (length index.now ≡ 16896) × (length own.now ≤ 4096) }
    ensures { Put out.old at (tuples_text (names_in text.now index.now []) disjuncts question.now own.now) out.new result }
{
    if disjuncts == 1 {
        return each(text, index, disjuncts, question, own, out, at);
    }
    let a = put::byte(out, at, b'(');
    let b = each(text, index, disjuncts, question, own, out, a);
    put::byte(out, b, b')')
}

fn line(
    name: &[u8],
    text: &[u8],
    index: &[u32],
    disjuncts: usize,
    question: &[u32],
    own: &[u32],
    out: &mut [u8],
    at: usize,
) -> usize
    requires { (length index.now ≡ 16896) × (length own.now ≤ 4096) }
    ensures { Put out.old at (line_text name.now (names_in text.now index.now []) disjuncts question.now own.now) out.new result }
{
    let a = put::bytes(out, at, b"% SZS answers Tuple [");
    let b = tuples(text, index, disjuncts, question, own, out, a);
    let c = put::bytes(out, b, b"|_] for ");
    let d = put::bytes(out, c, name);
    put::byte(out, d, b'\n')
}

// The line of an answer to a question, which is given with its clause word.
pub fn answers(
    name: &[u8],
    text: &[u8],
    index: &[u32],
    disjuncts: usize,
    question: &[u32],
    own: &[u32],
    out: &mut [u8],
    at: usize,
) -> usize
    requires { (length index.now ≡ 16896) × (length own.now ≤ 4096) }
    ensures { Put out.old at (answers_text name.now (names_in text.now index.now []) disjuncts question.now own.now) out.new result }
{
    if question.len() == 0 {
        return at;
    }
    if fields::variables(question[0]) == 0 {
        return at;
    }
    let literals = part::rest(question, 1);
    line(name, text, index, disjuncts, literals, own, out, at)
}
