// The words of literals shown in names.
ghost use Rattle.std.specs.Prelude.{◌≡◌, [], ◌+◌, ◌≤◌, ◌<◌, length, drop};
ghost use Rattle.text.specs.Put.{Put};
ghost use Rattle.naming.specs.Index.{name_of, function_places};
ghost use Rattle.naming.specs.Shown.{variable_text, joint_text, sign_text, open_of, closing, closed, opening, opened, Written, begun, names_in, shown, until_literal, literal_part};

use crate::lookup;
use text::put;
use words::fields;
use words::fields::wide;

// How many lists of arguments are being written, and how far the text goes.
#[derive(Clone, Copy)]
pub(crate) struct Reached {
    pub depth: usize,
    pub byte: usize,
}

// What comes after a whole term: a comma where arguments are still to come, else the parenthesis, and the same again.
fn leave(left: &mut [u32], depth: usize, out: &mut [u8], from: usize) -> Reached
    requires { depth ≤ length left.old }
    ensures { Written (closing (open_of left.old depth)) (closed (open_of left.old depth)) left.old depth out.old from left.new out.new result }
{
    let mut lists = depth;
    let mut at = from;
    while lists > 0 {
        let more = left[lists - 1];
        if more > 0 {
            left[lists - 1] = more - 1;
            let byte = put::byte(out, at, b',');
            return Reached { depth: lists, byte };
        }
        at = put::byte(out, at, b')');
        lists -= 1;
    }
    Reached {
        depth: lists,
        byte: at,
    }
}

// What comes after a symbol: the parenthesis before its arguments; a symbol without arguments is a whole term.
fn enter(left: &mut [u32], depth: usize, arity: u32, out: &mut [u8], from: usize) -> Reached
    requires { depth < length left.old }
    ensures { Written (opening arity (open_of left.old depth)) (opened arity (open_of left.old depth)) left.old depth out.old from left.new out.new result }
{
    if arity == 0 {
        return leave(left, depth, out, from);
    }
    left[depth] = arity - 1;
    let byte = put::byte(out, from, b'(');
    Reached {
        depth: depth + 1,
        byte,
    }
}

// A variable by its name, or by `X` and its number where it has none.
fn variable(text: &[u8], variables: &[u32], number: u32, out: &mut [u8], from: usize) -> usize
    ensures { Put out.old from (variable_text text.now variables.now number) out.new result }
{
    let name = lookup::name(text, variables, wide(number));
    if name.len() == 0 {
        return put::field(out, from, b"X", number);
    }
    put::bytes(out, from, name)
}

// What stands before a literal: nothing before the first, `or` on a new line before the first of a disjunct, else `&`.
fn joint(atoms: usize, before: usize, out: &mut [u8], from: usize) -> usize
    ensures { Put out.old from (joint_text atoms before) out.new result }
{
    if before == 0 {
        return from;
    }
    if atoms == 0 {
        return put::bytes(out, from, b" & ");
    }
    if before % atoms == 0 {
        return put::bytes(out, from, b"\nor ");
    }
    put::bytes(out, from, b" & ")
}

fn sign(negative: bool, out: &mut [u8], from: usize) -> usize
    ensures { Put out.old from (sign_text negative) out.new result }
{
    if negative {
        return put::bytes(out, from, b"~ ");
    }
    from
}

// A literal's sign and predicate, after what joins it to the literals before it.
fn begin(
    text: &[u8],
    index: &[u32],
    atoms: usize,
    before: usize,
    w: u32,
    out: &mut [u8],
    from: usize,
) -> usize
    requires { length index.now ≡ 16896 }
    ensures { Put out.old from (begun text.now index.now atoms before w) out.new result }
{
    let joined = joint(atoms, before, out, from);
    let signed = sign(fields::negative(w), out, joined);
    let name = lookup::predicate(text, index, wide(fields::symbol(w)));
    put::bytes(out, signed, name)
}

fn function(text: &[u8], index: &[u32], number: u32, out: &mut [u8], from: usize) -> usize
    requires { length index.now ≡ 16896 }
    ensures { Put out.old from (name_of text.now (function_places index.now) number) out.new result }
{
    let name = lookup::function(text, index, wide(number));
    put::bytes(out, from, name)
}

// Words from left to right.
fn run(
    text: &[u8],
    index: &[u32],
    variables: &[u32],
    atoms: usize,
    own: &[u32],
    left: &mut [u32],
    out: &mut [u8],
    from: usize,
) -> usize
    requires { (length index.now ≡ 16896) × (length own.now ≤ 4096) × (length left.old ≡ 4096) }
    ensures { Put out.old from (shown (names_in text.now index.now variables.now) atoms 0 [] own.now) out.new result }
{
    let mut depth = 0;
    let mut before = 0;
    let mut at = from;
    for w in own {
        let kind = fields::kind(*w);
        if kind == 0 {
            let named = variable(text, variables, fields::number(*w), out, at);
            let reached = leave(left, depth, out, named);
            depth = reached.depth;
            at = reached.byte;
            continue;
        }
        if kind == 1 {
            let named = function(text, index, fields::symbol(*w), out, at);
            let reached = enter(left, depth, fields::arity(*w), out, named);
            depth = reached.depth;
            at = reached.byte;
            continue;
        }
        let named = begin(text, index, atoms, before, *w, out, at);
        let reached = enter(left, 0, fields::arity(*w), out, named);
        depth = reached.depth;
        at = reached.byte;
        before += 1;
    }
    at
}

// The words of literals in names: an answer, given how many atoms a disjunct has, or one literal.
pub fn words(
    text: &[u8],
    index: &[u32],
    variables: &[u32],
    atoms: usize,
    own: &[u32],
    out: &mut [u8],
    from: usize,
) -> usize
    requires { (length index.now ≡ 16896) × (length own.now ≤ 4096) }
    ensures { Put out.old from (shown (names_in text.now index.now variables.now) atoms 0 [] own.now) out.new result }
{
    let mut left = [0u32; 4096];
    run(text, index, variables, atoms, own, &mut left, out, from)
}

// Where the present literal ends.
fn literal_end(own: &[u32], from: usize) -> usize
    requires { from ≤ length own.now }
    ensures { result ≡ from + length (until_literal (drop from own.now)) }
{
    for at in from..own.len() {
        if fields::kind(own[at]) == 2 {
            return at;
        }
    }
    own.len()
}

// The words of a literal, as a part of the words of a clause or an answer; empty where there are not so many literals.
pub fn literal(own: &[u32], number: usize) -> &[u32]
    ensures { result.now ≡ literal_part own.now number }
{
    let mut left = number;
    for (at, w) in own.iter().enumerate() {
        if fields::kind(*w) != 2 {
            continue;
        }
        if left == 0 {
            let end = literal_end(own, at + 1);
            return &own[at..end];
        }
        left -= 1;
    }
    &own[0..0]
}
