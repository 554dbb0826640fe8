// What `ask` writes of an outcome: its first line, the steps of a proof, and a line for each disjunct of its answer.
ghost use Rattle.std.specs.Prelude.{◌≡◌};
ghost use Rattle.text.specs.Put.{Put};
ghost use Rattle.asking.specs.Report.{summary_text, line_text, disjunct_length, literals_in, disjunct_text, disjuncts_text, answer_text, report_text};

use text::put;
use words::fields;

// A literal's first word has this kind.
const LITERAL: u32 = 2;

// The first line that `ask` writes.
fn summary(out: &mut [u8], at: usize, status: u32, place: u32, tries: u32) -> usize
    ensures { Put out.old at (summary_text status place tries) out.new result }
{
    let a = put::field(out, at, b"status ", status);
    let b = put::field(out, a, b" place ", place);
    let c = put::field(out, b, b" tries ", tries);
    put::byte(out, c, b'\n')
}

// A line of words after a name.
fn line(out: &mut [u8], at: usize, name: &[u8], list: &[u32]) -> usize
    ensures { Put out.old at (line_text name.now list.now) out.new result }
{
    let a = put::bytes(out, at, name);
    let b = put::spaced(out, a, list);
    put::byte(out, b, b'\n')
}

// The words before the literal that comes after so many literals.
fn disjunct_length(answer: &[u32], literals: usize) -> usize
    ensures { result ≡ disjunct_length answer.now literals }
{
    let mut left = literals;
    for (i, word) in answer.iter().enumerate() {
        if fields::kind(*word) == LITERAL {
            if left == 0 {
                return i;
            }
            left -= 1;
        }
    }
    answer.len()
}

fn literals_in(answer: &[u32]) -> usize
    ensures { result ≡ literals_in answer.now }
{
    let mut count = 0;
    for word in answer {
        if fields::kind(*word) == LITERAL {
            count += 1;
        }
    }
    count
}

fn disjunct(out: &mut [u8], at: usize, list: &[u32]) -> usize
    ensures { Put out.old at (disjunct_text list.now) out.new result }
{
    line(out, at, b"or", list)
}

// A line for each disjunct of an answer.
fn disjuncts(out: &mut [u8], from: usize, answer: &[u32], literals: usize, count: u32) -> usize
    ensures { Put out.old from (disjuncts_text count literals answer.now) out.new result }
{
    let mut at = from;
    let mut start = 0;
    for _ in 0..count {
        let end = start + disjunct_length(&answer[start..], literals);
        at = disjunct(out, at, &answer[start..end]);
        start = end;
    }
    at
}

// The lines that `ask` writes after the first: `proof` and the steps, then the disjuncts.
fn answer(out: &mut [u8], at: usize, count: u32, steps: &[u32], list: &[u32]) -> usize
    ensures { Put out.old at (answer_text count steps.now list.now) out.new result }
{
    let next = line(out, at, b"proof", steps);
    if count == 0 {
        return next;
    }
    let each = literals_in(list) / fields::wide(count);
    disjuncts(out, next, list, each, count)
}

// All that `ask` writes. Without an answer only the first line appears.
pub fn report(
    out: &mut [u8],
    at: usize,
    status: u32,
    place: u32,
    tries: u32,
    count: u32,
    steps: &[u32],
    list: &[u32],
) -> usize
    ensures { Put out.old at (report_text status place tries count steps.now list.now) out.new result }
{
    let next = summary(out, at, status, place, tries);
    if status == 0 {
        return answer(out, next, count, steps, list);
    }
    next
}
