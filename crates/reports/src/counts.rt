// The season report in plain words: a line for each question with one for other tools, and the counts.
ghost use Rattle.std.specs.Prelude.{◌≡◌};
ghost use Rattle.text.specs.Put.{Put};
ghost use Rattle.reports.specs.Counts.{added_report, ended_text, is_found, status_text, spent_text, asked_text, szs_question_text, title_text, found_counts_text, other_counts_text, last_counts_text, season_text, alone_report, one_report, no_question_text};

use assistant::place;
use hukolearu::{Outcome, status};
use season::Report;
use text::put;

// The counts of two reports together.
pub fn added(a: Report, b: Report) -> Report
    ensures { result ≡ added_report a b }
{
    Report {
        status: a.status,
        place: a.place,
        definite: a.definite.saturating_add(b.definite),
        indefinite: a.indefinite.saturating_add(b.indefinite),
        none: a.none.saturating_add(b.none),
        ranout: a.ranout.saturating_add(b.ranout),
        toolong: a.toolong.saturating_add(b.toolong),
        refused: a.refused.saturating_add(b.refused),
        tries: a.tries.saturating_add(b.tries),
    }
}

fn only(
    definite: u32,
    indefinite: u32,
    none: u32,
    ranout: u32,
    toolong: u32,
    refused: u32,
    tries: u32,
) -> Report
    ensures { result ≡ one_report definite indefinite none ranout toolong refused tries }
{
    Report {
        status: 0,
        place: 0,
        definite,
        indefinite,
        none,
        ranout,
        toolong,
        refused,
        tries: tries as u64,
    }
}

// The report of one question alone, by what its search came to.
#[tactic(auto, using(crate::proofs::Counting::alone_laws))]
pub fn alone(o: Outcome) -> Report
    ensures { result ≡ alone_report o }
{
    let ended = o.status;
    let tries = o.tries;
    if ended == status::DONE {
        if o.disjuncts == 1 {
            return only(1, 0, 0, 0, 0, 0, tries);
        }
        return only(0, 1, 0, 0, 0, 0, tries);
    }
    if ended == status::NONE_FOUND {
        return only(0, 0, 1, 0, 0, 0, tries);
    }
    if ended == status::RAN_OUT {
        return only(0, 0, 0, 1, 0, 0, tries);
    }
    if ended == status::ANSWER_TOO_LONG {
        return only(0, 0, 0, 0, 1, 0, tries);
    }
    only(0, 0, 0, 0, 0, 1, tries)
}

// A clause among the questions that is none, by its place.
pub fn no_question(out: &mut [u8], at: usize, label: &[u8]) -> usize
    ensures { Put out.old at (no_question_text label.now) out.new result }
{
    let a = put::bytes(out, at, label);
    put::bytes(
        out,
        a,
        b": this clause is no question: its role is not negated_conjecture\n",
    )
}

// What the one question of a report came to.
fn ended(out: &mut [u8], at: usize, r: Report) -> usize
    ensures { Put out.old at (ended_text r) out.new result }
{
    if r.definite == 1 {
        return put::bytes(out, at, b"found, a definite answer");
    }
    if r.indefinite == 1 {
        return put::bytes(out, at, b"found, not definite");
    }
    if r.none == 1 {
        return put::bytes(out, at, b"none within the limit");
    }
    if r.ranout == 1 {
        return put::bytes(out, at, b"ran out, nothing is known yet");
    }
    if r.toolong == 1 {
        return put::bytes(out, at, b"found, an answer too long to be shown");
    }
    put::bytes(out, at, b"refused")
}

#[tactic(auto, unfolding(crate::specs::Counts::is_found))]
fn found(r: Report) -> bool
    ensures { result ≡ is_found r }
{
    r.definite == 1 || r.indefinite == 1 || r.toolong == 1
}

// The same in a word of the SZS ontology.
fn status(out: &mut [u8], at: usize, r: Report) -> usize
    ensures { Put out.old at (status_text r) out.new result }
{
    if found(r) {
        return put::bytes(out, at, b"Unsatisfiable");
    }
    if r.none == 1 {
        return put::bytes(out, at, b"GaveUp");
    }
    if r.ranout == 1 {
        return put::bytes(out, at, b"ResourceOut");
    }
    put::bytes(out, at, b"InputError")
}

fn spent(out: &mut [u8], at: usize, tries: u64) -> usize
    ensures { Put out.old at (spent_text tries) out.new result }
{
    let a = put::long_field(out, at, b" (tries ", tries);
    put::bytes(out, a, b")\n")
}

// A question by its place and name, and what it came to.
pub fn question(out: &mut [u8], at: usize, label: &[u8], name: &[u8], r: Report) -> usize
    ensures { Put out.old at (asked_text label.now name.now r) out.new result }
{
    let a = place::both(out, at, label, b": ");
    let b = place::both(out, a, name, b": ");
    let c = ended(out, b, r);
    spent(out, c, r.tries)
}

// A line for other tools.
pub fn szs(out: &mut [u8], at: usize, name: &[u8], r: Report) -> usize
    ensures { Put out.old at (szs_question_text name.now r) out.new result }
{
    let a = put::bytes(out, at, b"% SZS status ");
    let b = status(out, a, r);
    let c = place::both(out, b, b" for ", name);
    put::byte(out, c, b'\n')
}

fn title(out: &mut [u8], at: usize, table: &[u8], limit: u32, budget: u32) -> usize
    ensures { Put out.old at (title_text table.now limit budget) out.new result }
{
    let a = place::both(out, at, b"Season report of ", table);
    let b = put::field(out, a, b", a question may use ", limit);
    let c = put::field(out, b, b" clauses and ", budget);
    put::bytes(out, c, b" tries:\n")
}

fn found_counts(out: &mut [u8], at: usize, r: Report) -> usize
    ensures { Put out.old at (found_counts_text r) out.new result }
{
    let a = put::field(out, at, b"  found, a definite answer: ", r.definite);
    put::field(out, a, b"\n  found, not definite: ", r.indefinite)
}

fn other_counts(out: &mut [u8], at: usize, r: Report) -> usize
    ensures { Put out.old at (other_counts_text r) out.new result }
{
    let a = put::field(out, at, b"\n  none within the limit: ", r.none);
    let b = put::field(out, a, b"\n  ran out: ", r.ranout);
    put::field(out, b, b"\n  answer too long to be shown: ", r.toolong)
}

fn last_counts(out: &mut [u8], at: usize, r: Report) -> usize
    ensures { Put out.old at (last_counts_text r) out.new result }
{
    let a = put::field(out, at, b"\n  refused: ", r.refused);
    let b = put::long_field(out, a, b"\n  tries in all: ", r.tries);
    put::byte(out, b, b'\n')
}

// The counts of a season, after the table's name.
pub fn report(out: &mut [u8], at: usize, table: &[u8], limit: u32, budget: u32, r: Report) -> usize
    ensures { Put out.old at (season_text table.now limit budget r) out.new result }
{
    let a = title(out, at, table, limit, budget);
    let b = found_counts(out, a, r);
    let c = other_counts(out, b, r);
    last_counts(out, c, r)
}
