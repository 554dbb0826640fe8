// What a text was expected to go on with.
ghost use Rattle.std.specs.Prelude.{◌≡◌};
ghost use Rattle.text.specs.Put.{Put};
ghost use Rattle.assistant.specs.Expected.{symbol_text, ended_text, wanted_text, owed_text, expected_text};

use clausetext::judge::{Mode, Want};
use text::put;

fn symbol(out: &mut [u8], at: usize, depth: usize) -> usize
    ensures { Put out.old at (symbol_text depth) out.new result }
{
    if depth == 0 {
        return put::bytes(out, at, b"arguments in parentheses, `|` or `)`");
    }
    put::bytes(out, at, b"arguments in parentheses, `,` or `)`")
}

fn ended(out: &mut [u8], at: usize, depth: usize) -> usize
    ensures { Put out.old at (ended_text depth) out.new result }
{
    if depth == 0 {
        return put::bytes(out, at, b"`|` or `)`");
    }
    put::bytes(out, at, b"`,` or `)`")
}

fn wanted(out: &mut [u8], at: usize, want: Want) -> usize
    ensures { Put out.old at (wanted_text want) out.new result }
{
    match want {
        Want::Clause => put::bytes(out, at, b"`cnf`, or the end of the text"),
        Want::Opening => put::bytes(out, at, b"`(`"),
        Want::Name => put::bytes(
            out,
            at,
            b"the clause's name, which begins with a small letter",
        ),
        Want::AfterName => put::bytes(out, at, b"`,` after the clause's name"),
        Want::Role => put::bytes(out, at, b"a role: axiom, hypothesis or negated_conjecture"),
        Want::AfterRole => put::bytes(out, at, b"`,` after the role"),
        Want::Formula => put::bytes(
            out,
            at,
            b"`(`, `~` or a predicate, which begins with a small letter",
        ),
        Want::Literal(_) => put::bytes(
            out,
            at,
            b"`~` or a predicate, which begins with a small letter",
        ),
        Want::Atom(_) => put::bytes(out, at, b"a predicate, which begins with a small letter"),
        Want::Symbol(depth, _) => symbol(out, at, depth),
        Want::Term(_, _) => put::bytes(
            out,
            at,
            b"a term: a variable with a capital letter, or a function or constant with a small one",
        ),
        Want::Ended(depth, _) => ended(out, at, depth),
        Want::Closing => put::bytes(out, at, b"`)`"),
        Want::Stop => put::bytes(out, at, b"`.`"),
    }
}

fn owed(out: &mut [u8], at: usize, place: usize) -> usize
    ensures { Put out.old at (owed_text place) out.new result }
{
    if place < 4 {
        return put::bytes(out, at, b"`cnf` and then `(`");
    }
    if place < 10 {
        return put::bytes(out, at, b"`axiom` and then `,`");
    }
    if place < 21 {
        return put::bytes(out, at, b"`hypothesis` and then `,`");
    }
    put::bytes(out, at, b"`negated_conjecture` and then `,`")
}

pub(crate) fn expected(out: &mut [u8], at: usize, want: Want, mode: Mode) -> usize
    ensures { Put out.old at (expected_text want mode) out.new result }
{
    match mode {
        Mode::Between | Mode::Comment | Mode::Word => wanted(out, at, want),
        Mode::Owed(place) => owed(out, at, place),
    }
}
