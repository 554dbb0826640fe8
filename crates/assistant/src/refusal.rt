// Refusals of a text as a person would want them.
ghost use Rattle.std.specs.Prelude.{◌≡◌, ◌++◌};
ghost use Rattle.text.specs.Put.{Put};
ghost use Rattle.names.specs.Noting.{name_at};
ghost use Rattle.assistant.specs.Refusals.{head_text, hope_text, long_text, located_text, wrong_in_text, wrong_text, question_name, twice_text, unasked_text, positive_text, over_text};

use crate::place::Position;
use crate::{excerpt, expected, place};
use clausetext::judge::State;
use clausetext::{kind, stuck};
use text::{part, put};

// File, line and column.
fn head(out: &mut [u8], at: usize, name: &[u8], p: Position) -> usize
    ensures { Put out.old at (head_text name.now p) out.new result }
{
    let a = put::bytes(out, at, name);
    let b = place::labelled(out, a, b":", p.line);
    let c = place::labelled(out, b, b":", p.column);
    put::bytes(out, c, b": the text goes wrong here\n")
}

fn hope(out: &mut [u8], at: usize, s: State) -> usize
    ensures { Put out.old at (hope_text s) out.new result }
{
    let a = put::bytes(out, at, b"expected ");
    let b = expected::expected(out, a, s.want, s.mode);
    put::byte(out, b, b'\n')
}

fn long(out: &mut [u8], at: usize, name: &[u8]) -> usize
    ensures { Put out.old at (long_text name.now) out.new result }
{
    let a = put::bytes(out, at, name);
    put::bytes(out, a, b": the text is longer than 65536 bytes\n")
}

// Where a text goes wrong: file, line and column, the bytes around the place and a mark below it.
pub fn located(out: &mut [u8], at: usize, name: &[u8], text: &[u8], place: usize) -> usize
    ensures { Put out.old at (located_text name.now text.now place) out.new result }
{
    let before = part::front(text, place);
    let rest = part::rest(text, place);
    let p = place::locate(before);
    let a = head(out, at, name, p);
    excerpt::excerpt(out, a, before, rest, p.column)
}

// The same of a text that begins at a place of a longer one, and what was expected.
pub fn wrong_in(
    out: &mut [u8],
    at: usize,
    name: &[u8],
    text: &[u8],
    from: usize,
    place: usize,
) -> usize
    ensures { Put out.old at (wrong_in_text name.now text.now from place) out.new result }
{
    let own = part::rest(text, from);
    let a = located(out, at, name, text, place);
    hope(out, a, stuck::stuck_in(own))
}

// 17: where the text goes wrong, and what was expected.
pub fn wrong(out: &mut [u8], at: usize, name: &[u8], text: &[u8], place: usize) -> usize
    ensures { Put out.old at (wrong_text name.now text.now place) out.new result }
{
    if 65536 < text.len() {
        return long(out, at, name);
    }
    wrong_in(out, at, name, text, 0, place)
}

// The name that begins at a place.
fn name_at(out: &mut [u8], from: usize, text: &[u8], place: usize) -> usize
    ensures { Put out.old from (name_at text.now place) out.new result }
{
    let mut at = from;
    let rest = part::rest(text, place);
    for c in rest {
        if !kind::goes_on(kind::kind_of(*c)) {
            return at;
        }
        at = put::byte(out, at, *c);
    }
    at
}

// The name of the so-many-th question, counted from 1.
fn question(out: &mut [u8], at: usize, text: &[u8], many: usize) -> usize
    ensures { Put out.old at (question_name text.now many) out.new result }
{
    let place = stuck::question_name(text, many);
    name_at(out, at, text, place)
}

// The same after a label.
fn named(out: &mut [u8], at: usize, label: &[u8], text: &[u8], many: usize) -> usize
    ensures { Put out.old at (label.now ++ question_name text.now many) out.new result }
{
    let a = put::bytes(out, at, label);
    question(out, a, text, many)
}

fn twice(out: &mut [u8], at: usize, name: &[u8], text: &[u8]) -> usize
    ensures { Put out.old at (twice_text name.now text.now) out.new result }
{
    let a = put::bytes(out, at, name);
    let b = named(
        out,
        a,
        b": there is more than one question (role negated_conjecture): ",
        text,
        1,
    );
    let c = named(out, b, b" and ", text, 2);
    put::byte(out, c, b'\n')
}

// 18: no question, or more than one.
pub fn unasked(out: &mut [u8], at: usize, name: &[u8], text: &[u8], questions: usize) -> usize
    ensures { Put out.old at (unasked_text name.now text.now questions) out.new result }
{
    if questions == 0 {
        let a = put::bytes(out, at, name);
        return put::bytes(
            out,
            a,
            b": there is no question: no clause has the role negated_conjecture\n",
        );
    }
    twice(out, at, name, text)
}

// 9: the question has a positive literal.
pub fn positive(out: &mut [u8], at: usize, name: &[u8], text: &[u8]) -> usize
    ensures { Put out.old at (positive_text name.now text.now) out.new result }
{
    let a = put::bytes(out, at, name);
    let b = named(out, a, b": the question ", text, 1);
    put::bytes(
        out,
        b,
        b" has a literal without `~`: all its literals must be denied\n",
    )
}

// 19: the table is over a limit.
pub fn over(out: &mut [u8], at: usize, name: &[u8]) -> usize
    ensures { Put out.old at (over_text name.now) out.new result }
{
    let a = put::bytes(out, at, name);
    put::bytes(
        out,
        a,
        b": the table is over a limit: 512 clauses, 16000 words in all, 4096 predicates, 4096 functions; a clause 7 literals, 16 variables, 255 words; 4 arguments\n",
    )
}
