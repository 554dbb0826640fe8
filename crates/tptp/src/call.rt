// The public call: a text in, a question file out.
ghost use Rattle.tptp.specs.Inside.{Asked, Gatherable};
ghost use Rattle.tptp.specs.Reads.{Reads};

use crate::TextRead;
use crate::last::{finish, refused};
use crate::sketch::gather;
use clausetext::judge::judge_text;

// Reads a text with one question from its items.
fn read_items(
    text: &[u8],
    marks: &[u32],
    places: &[u32],
    clauses: usize,
    file: &mut [u32],
) -> TextRead
    requires { Gatherable text.now marks.now places.now clauses }
    ensures { Reads text.now file.old result file.new }
{
    let count = marks.len();
    if 15996 < count {
        return refused(19, 0);
    }
    if file.len() < count + 4 {
        return refused(19, 0);
    }
    if 512 < clauses {
        return refused(19, 0);
    }
    let mut words = [0u32; 15996];
    finish(text, marks, places, &mut words[0..count], clauses, file)
}

// Reads a text with one question.
fn read_asked(text: &[u8], clauses: usize, file: &mut [u32]) -> TextRead
    requires { Asked text.now clauses }
    ensures { Reads text.now file.old result file.new }
{
    let mut marks = [0u32; 65536];
    let mut places = [0u32; 65536];
    let mut inner = [0u32; 65536];
    let count = gather(text, &mut marks, &mut places, &mut inner);
    read_items(text, &marks[0..count], &places[0..count], clauses, file)
}

// Reads clause text into a question file, which stands at the front of the buffer; a refusal leaves the buffer unchanged.
#[tactic(auto, using(crate::proofs::Calling::read_laws))]
pub fn read(text: &[u8], file: &mut [u32]) -> TextRead
    ensures { Reads text.now file.old result file.new }
{
    match judge_text(text) {
        Err(place) => refused(17, place as u32),
        Ok(counts) => {
            if counts.questions != 1 {
                return refused(18, 0);
            }
            read_asked(text, counts.clauses, file)
        }
    }
}
