// The clauses behind a proof by their own names, each with how often it was used.
ghost use Rattle.std.specs.Prelude.{◌≡◌, map, ◌≤◌, ◌<◌, length, drop, get_or, take};
ghost use Rattle.words.specs.Steps.{step_of};
ghost use Rattle.names.specs.Noting.{names_at};
ghost use Rattle.table.specs.File.{judge, table_in};
ghost use Rattle.text.specs.Put.{Put};
ghost use Rattle.listing.specs.Counting.{Counters};
ghost use Rattle.answering.specs.Results.{clauses_text};
ghost use Rattle.answering.specs.Telling.{used_text};

use crate::question;
use assistant::result;
use listing::counting;
use naming::lookup;
use text::{part, put};
use words::fields::wide;

// Each clause before the question that has copies, ascending; then the question, for which the start counts.
fn lines(
    text: &[u8],
    places: &[u32],
    copies: &[u32],
    question: usize,
    out: &mut [u8],
    from: usize,
) -> usize
    requires { Counters copies.now × (question < 512) }
    ensures { Put out.old from (used_text (names_at text.now places.now) copies.now question) out.new result }
{
    let mut at = from;
    for number in 0..question {
        let used = copies[number];
        if used == 0 {
            continue;
        }
        at = result::behind(out, at, lookup::name(text, places, number), used);
    }
    result::behind(
        out,
        at,
        lookup::name(text, places, question),
        copies[question] + 1,
    )
}

pub fn clauses(
    text: &[u8],
    places: &[u32],
    file: &[u32],
    steps: &[u32],
    out: &mut [u8],
    at: usize,
) -> usize
    requires { ((judge file.now).status ≡ 0) × (length steps.now ≤ 199) }
    ensures { Put out.old at (clauses_text (names_at text.now places.now) (table_in file.now) (map step_of steps.now)) out.new result }
{
    let mut copies = [0u32; 512];
    counting::count(steps, &mut copies);
    let next = put::bytes(
        out,
        at,
        b"Clauses behind it, and how often each was used:\n",
    );
    lines(text, places, &copies, question::number(file), out, next)
}
