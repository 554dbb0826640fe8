// What is said of a text that passes a limit.
ghost use Rattle.std.specs.Prelude.{◌≡◌, ◌≤◌, ◌<◌, length};
ghost use Rattle.clausetext.specs.Texts.{Permitted};
ghost use Rattle.text.specs.Put.{Put};
ghost use Rattle.limits.specs.Told.{limit_text, NamePut, ClauseTold, Told};

use crate::find::{Limit, Passed, find};
use clausetext::judge::judge_text;
use naming::clauses::put_names;
use naming::lookup;
use text::put;

fn reason(out: &mut [u8], at: usize, limit: Limit) -> usize
    ensures { Put out.old at (limit_text (Some limit)) out.new result }
{
    match limit {
        Limit::Literals => put::bytes(
            out,
            at,
            b" has more than 7 literals, the most that a clause may have\n",
        ),
        Limit::Arguments => put::bytes(
            out,
            at,
            b" has a predicate or a function with more than 4 arguments, the most that one may have\n",
        ),
        Limit::Variables => put::bytes(
            out,
            at,
            b" has more than 16 variables, the most that a clause may have\n",
        ),
        Limit::Words => put::bytes(
            out,
            at,
            b" has more than 255 predicates, functions, constants and variables, each counted as often as it stands there\n",
        ),
        Limit::Clauses => put::bytes(
            out,
            at,
            b" is one clause too many: a table may have 512, with the question\n",
        ),
        Limit::Predicates => put::bytes(
            out,
            at,
            b" has a predicate too many: a table may have 4096\n",
        ),
        Limit::Functions => put::bytes(
            out,
            at,
            b" has a function or constant too many: a table may have 4096\n",
        ),
        Limit::Total => put::bytes(
            out,
            at,
            b" makes the table too long: it may have 15996 words, one for each clause, predicate, function, constant and variable that stands there\n",
        ),
    }
}

// The name of the so-many-th question, or of the so-many-th of the other clauses.
fn put_name(out: &mut [u8], at: usize, text: &[u8], asked: bool, number: usize) -> usize
    requires { (length text.now ≤ 65536) × Permitted text.now × (number < 65536) }
    ensures { NamePut text.now asked number out.old at out.new result }
{
    let mut names = [0u32; 65536];
    put_names(text, asked, &mut names, 0);
    let name = lookup::name(text, &names, number);
    put::bytes(out, at, name)
}

// The clause that passes a limit, and the limit.
fn clause_text(out: &mut [u8], at: usize, file: &[u8], text: &[u8], p: Passed) -> usize
    requires { (length text.now ≤ 65536) × Permitted text.now × (p.number < 65536) }
    ensures { ClauseTold file.now text.now p out.old at out.new result }
{
    let a = put::bytes(out, at, file);
    let b = put::bytes(out, a, b": the clause ");
    let c = put_name(out, b, text, p.asked, p.number);
    reason(out, c, p.limit)
}

fn over_text(out: &mut [u8], at: usize, file: &[u8], text: &[u8]) -> usize
    requires { (length text.now ≤ 65536) × Permitted text.now }
    ensures { Told file.now text.now out.old at out.new result }
{
    match find(text) {
        Some(p) => clause_text(out, at, file, text, p),
        None => {
            let a = put::bytes(out, at, file);
            put::bytes(out, a, b": the table passes no limit\n")
        }
    }
}

// 19: the clause and the limit that it passes; nothing is written of a text that cannot be read.

pub fn over(out: &mut [u8], at: usize, file: &[u8], text: &[u8]) -> usize
    ensures { Told file.now text.now out.old at out.new result }
{
    match judge_text(text) {
        Err(_) => at,
        Ok(_) => over_text(out, at, file, text),
    }
}
