// The clauses of a text one by one, whatever they hold: each ends with its `.`, outside comments.
ghost use Rattle.std.specs.Prelude.{◌≡◌, false, ◌+◌, drop};
ghost use Rattle.text.specs.Put.{Put};
ghost use Rattle.reports.specs.Clauses.{clause_length, stated_part, stated_text};

use clausetext::stuck;
use text::{part, put};

// Where the clause that begins at a place ends: after its `.`, or with the text.
#[tactic(auto, using(crate::proofs::Cutting::seek_laws))]
pub fn clause_end(text: &[u8], from: usize) -> usize
    ensures { result ≡ from + clause_length false (drop from text.now) }
{
    let tail = part::rest(text, from);
    let mut remark = false;
    for (i, c) in tail.iter().enumerate() {
        if remark {
            remark = *c != b'\n';
            continue;
        }
        if *c == b'.' {
            return from + (i + 1);
        }
        remark = *c == b'%';
    }
    from + tail.len()
}

// A clause, unless it is a question.
fn put_stated(out: &mut [u8], at: usize, clause: &[u8]) -> usize
    ensures { Put out.old at (stated_part clause.now) out.new result }
{
    let s = stuck::stuck_in(clause);
    if s.questions == 0 {
        return put::bytes(out, at, clause);
    }
    at
}

// A text without its questions.
#[tactic(auto, using(crate::proofs::Cutting::stated_laws))]
pub fn stated(text: &[u8], out: &mut [u8]) -> usize
    ensures { Put out.old 0 (stated_text text.now) out.new result }
{
    let mut at = 0;
    let mut used = 0;
    while at < text.len() {
        let end = clause_end(text, at);
        used = put_stated(out, used, &text[at..end]);
        at = end;
    }
    used
}
