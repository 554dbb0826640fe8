// Why a text is refused, in plain words.
ghost use Rattle.std.specs.Prelude.{◌≡◌};
ghost use Rattle.answering.specs.Refusing.{questions_in, Refusal};

use assistant::refusal;
use clausetext::judge::judge_text;
use tptp::TextRead;
use words::fields::wide;

// How many questions a text has; 0 where it goes wrong.
#[tactic(auto, using(crate::proofs::Refusing::question_laws))]
fn questions(text: &[u8]) -> usize
    ensures { result ≡ questions_in text.now }
{
    match judge_text(text) {
        Ok(counts) => counts.questions,
        Err(_) => 0,
    }
}

pub fn refusal(out: &mut [u8], at: usize, name: &[u8], text: &[u8], read: TextRead) -> usize
    ensures { Refusal name.now text.now read out.old at out.new result }
{
    if read.status == 17 {
        return refusal::wrong(out, at, name, text, wide(read.place));
    }
    if read.status == 18 {
        return refusal::unasked(out, at, name, text, questions(text));
    }
    if read.status == 9 {
        return refusal::positive(out, at, name, text);
    }
    limits::tell::over(out, at, name, text)
}
