// A result in plain words, and the line for other tools.
ghost use Rattle.std.specs.Prelude.{◌≡◌, Bool, ◌≤◌, length, take};
ghost use Rattle.names.specs.Noting.{names_at};
ghost use Rattle.table.specs.File.{table_in};
ghost use Rattle.naming.specs.Index.{clause_places};
ghost use Rattle.text.specs.Put.{Put};
ghost use Rattle.answering.specs.Results.{paged, answer_text, proof_text, grounds_text, tuples_line, lines_text, found_text, end_text};
ghost use Rattle.answering.specs.Telling.{words_in, CutTo, Wordable, Holds, FoundIn, Told};

use crate::look::Looked;
use crate::{Options, behind, question, rooms};
use assistant::result;
use hukolearu::status;
use naming::show;
use text::{part, put};
use words::fields::wide;
use words::room;

// A page that was written, cut at its end with a mark.
pub fn cut(page: &[u8], n: usize, out: &mut [u8], at: usize) -> usize
    ensures { CutTo page.now n out.old at out.new result }
{
    let next = put::bytes(out, at, part::front(page, n));
    if page.len() < n {
        return put::bytes(out, next, b" ...\n");
    }
    next
}

// The first line, and the answer in names.
fn answer(
    text: &[u8],
    index: &[u32],
    file: &[u32],
    l: Looked,
    words: &[u32],
    page: &mut [u8],
) -> usize
    requires { Wordable index.now file.now × (length words.now ≤ 4096) }
    ensures { Put page.old 0 (answer_text (words_in text.now index.now file.now) l.bound l.tries l.outcome.disjuncts words.now) page.new result }
{
    let o = l.outcome;
    let literals = question::literals(file);
    let a = result::found(page, 0, o.disjuncts, l.bound, l.tries);
    let b = show::words(text, index, part::front(index, 0), literals, words, page, a);
    put::byte(page, b, b'\n')
}

// The proof in a form that can be read: a step a line.
fn proof(
    wanted: bool,
    text: &[u8],
    places: &[u32],
    steps: &[u32],
    out: &mut [u8],
    at: usize,
) -> usize
    ensures { Put out.old at (proof_text wanted (names_at text.now (take 512 places.now)) steps.now) out.new result }
{
    if !wanted {
        return at;
    }
    let mut page: [u8; rooms::PAGE] = room::filled(0);
    let n = written_proofs::write::proof(text, places, steps, &mut page, 0);
    let next = put::bytes(out, at, b"Proof:\n");
    cut(&page, n, out, next)
}

// The first line and the answer, on a page of their own.
fn answer_page(
    text: &[u8],
    index: &[u32],
    file: &[u32],
    l: Looked,
    words: &[u32],
    out: &mut [u8],
    at: usize,
) -> usize
    requires { Wordable index.now file.now × (length words.now ≤ 4096) }
    ensures { Put out.old at (paged (answer_text (words_in text.now index.now file.now) l.bound l.tries l.outcome.disjuncts words.now)) out.new result }
{
    let mut page: [u8; rooms::PAGE] = room::filled(0);
    let n = answer(text, index, file, l, words, &mut page);
    cut(&page, n, out, at)
}

// What the answer rests on: the clauses behind it, and the proof where it is wanted.
fn grounds(
    wanted: bool,
    text: &[u8],
    index: &[u32],
    file: &[u32],
    steps: &[u32],
    out: &mut [u8],
    at: usize,
) -> usize
    requires { Wordable index.now file.now × (length steps.now ≤ 199) }
    ensures { Put out.old at (grounds_text wanted (names_at text.now (clause_places index.now)) (table_in file.now) steps.now) out.new result }
{
    let places = part::front(part::rest(index, 8192), 512);
    let next = behind::clauses(text, places, file, steps, out, at);
    proof(wanted, text, places, steps, out, next)
}

// The answers as tuples.
fn answers(
    name: &[u8],
    text: &[u8],
    index: &[u32],
    file: &[u32],
    disjuncts: u32,
    words: &[u32],
    page: &mut [u8],
) -> usize
    requires { Wordable index.now file.now × (length words.now ≤ 4096) }
    ensures { Put page.old 0 (tuples_line name.now (words_in text.now index.now file.now) disjuncts words.now) page.new result }
{
    let own = question::words(file);
    tuples::answers(name, text, index, wide(disjuncts), own, words, page, 0)
}

// The lines for other tools: the status, and the answers on a page of their own.
fn lines(
    name: &[u8],
    text: &[u8],
    index: &[u32],
    file: &[u32],
    disjuncts: u32,
    words: &[u32],
    out: &mut [u8],
    at: usize,
) -> usize
    requires { Wordable index.now file.now × (length words.now ≤ 4096) }
    ensures { Put out.old at (lines_text name.now (words_in text.now index.now file.now) disjuncts words.now) out.new result }
{
    let next = result::szs(out, at, b"Unsatisfiable", name);
    let mut page: [u8; rooms::PAGE] = room::filled(0);
    let n = answers(name, text, index, file, disjuncts, words, &mut page);
    cut(&page, n, out, next)
}

// A proof found, its answer in names.
fn found(
    wanted: bool,
    name: &[u8],
    text: &[u8],
    index: &[u32],
    file: &[u32],
    l: Looked,
    steps: &[u32],
    words: &[u32],
    out: &mut [u8],
    at: usize,
) -> usize
    requires { Wordable index.now file.now × (length steps.now ≤ 199) × (length words.now ≤ 4096) }
    ensures { Put out.old at (found_text wanted name.now (words_in text.now index.now file.now) l.bound l.tries l.outcome.disjuncts steps.now words.now) out.new result }
{
    let a = answer_page(text, index, file, l, words, out, at);
    let b = grounds(wanted, text, index, file, steps, out, a);
    lines(name, text, index, file, l.outcome.disjuncts, words, out, b)
}

// The names of the text, and what was found in them.
fn found_in(
    wanted: bool,
    name: &[u8],
    text: &[u8],
    file: &[u32],
    l: Looked,
    steps: &[u32],
    words: &[u32],
    out: &mut [u8],
    at: usize,
) -> usize
    requires { Holds file.now steps.now words.now }
    ensures { FoundIn wanted name.now text.now file.now l steps.now words.now out.old at out.new result }
{
    let mut index: [u32; rooms::INDEX] = room::filled(0);
    naming::index::index(text, &mut index);
    found(wanted, name, text, &index, file, l, steps, words, out, at)
}

// No answer to show: none, ran out, or too long.
fn ended(limit: u32, name: &[u8], l: Looked, out: &mut [u8], at: usize) -> usize
    ensures { Put out.old at (end_text limit name.now l.outcome.status l.bound l.tries) out.new result }
{
    let status = l.outcome.status;
    if status == status::NONE_FOUND {
        let a = result::none(out, at, limit, l.tries);
        return result::szs(out, a, b"GaveUp", name);
    }
    if status == status::RAN_OUT {
        let a = result::ran_out(out, at, l.bound, l.tries);
        return result::szs(out, a, b"ResourceOut", name);
    }
    if status == status::ANSWER_TOO_LONG {
        let a = result::too_long(out, at, l.bound, l.tries);
        return result::szs(out, a, b"Unsatisfiable", name);
    }
    at
}

// What was looked for and found, or not.
pub fn result(
    o: Options,
    name: &[u8],
    text: &[u8],
    file: &[u32],
    l: Looked,
    steps: &[u32],
    words: &[u32],
    out: &mut [u8],
    at: usize,
) -> usize
    requires { Holds file.now steps.now words.now }
    ensures { Told o name.now text.now file.now l steps.now words.now out.old at out.new result }
{
    if l.outcome.status == status::DONE {
        return found_in(o.proof, name, text, file, l, steps, words, out, at);
    }
    ended(o.limit, name, l, out, at)
}
