// The lines of a listing. What has no room in the buffer is counted: each function answers the place after its text.
ghost use Rattle.std.specs.Prelude.{true, ◌≡◌, ◌+◌, ◌≤◌, ◌<◌, length, get_or};
ghost use Rattle.words.specs.Fields.{following_of};
ghost use Rattle.table.specs.Decode.{clause_of};
ghost use Rattle.table.specs.File.{table_in};
ghost use Rattle.text.specs.Put.{Put};
ghost use Rattle.slim.specs.Walking.{Ready};
ghost use Rattle.clauselines.specs.Writers.{IsClause};
ghost use Rattle.listing.specs.Lines.{line_text};
ghost use Rattle.listing.specs.Counting.{Counters, counted_text};

use text::put;
use words::fields;

// Where the clause after this one begins.
fn after(file: &[u32], at: usize) -> usize
    requires at_in_bounds { at < length file.now }
    requires file_len_bound { length file.now ≤ 16000 }
    ensures { result ≡ at + (following_of (get_or file.now at 0) + 1) }
{
    at + (fields::wide(fields::following(file[at])) + 1)
}

// The line of a clause, given its words.
fn line(own: &[u32], number: u32, copies: u32, question: bool, out: &mut [u8], from: usize) -> usize
    requires { IsClause own.now }
    ensures { Put out.old from (line_text question (record { number = number; copies = copies; clause = clause_of own.now })) out.new result }
{
    let numbered = put::decimal(out, from, number);
    let counted = put::field(out, numbered, b" ", copies);
    let begun = put::byte(out, counted, b' ');
    clauselines::line::clause(own, number, question, out, begun)
}

// A line for each clause before the question that has copies, then the question's, for which the start counts.
pub(crate) fn write(file: &[u32], question: usize, copies: &[u32], out: &mut [u8]) -> usize
    requires { Ready file.now question × Counters copies.now }
    ensures { Put out.old 0 (counted_text copies.now (table_in file.now)) out.new result }
{
    let mut number = 0;
    let mut next = 0;
    let mut end = 0;
    while next < question {
        let at = next;
        let this = number;
        next = after(file, at);
        number += 1;
        if copies[this] == 0 {
            continue;
        }
        end = line(&file[at..next], this as u32, copies[this], false, out, end);
    }
    let stop = after(file, question);
    line(
        &file[question..stop],
        number as u32,
        copies[number] + 1,
        true,
        out,
        end,
    )
}
