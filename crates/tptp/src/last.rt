// The question goes last.
ghost use Rattle.std.specs.Prelude.{◌≡◌, ◌+◌, ◌-◌, length, drop};
ghost use Rattle.table.specs.Build.{at_front, sealed};
ghost use Rattle.tptp.specs.Body.{ahead, moved_last, Parted};
ghost use Rattle.tptp.specs.Reads.{refused, Reads};
ghost use Rattle.tptp.specs.Inside.{Askable};

use crate::TextRead;
use crate::body::make;
use table::build::{append, seal};

// Where the next mark of a sort, or of a later one, stands.
pub fn seek(marks: &[u32], from: usize, sort: u32) -> usize
    ensures { result ≡ from + ahead sort (drop from marks.now) }
{
    for at in from..marks.len() {
        if sort <= marks[at] % 8 {
            return at;
        }
    }
    from.max(marks.len())
}

// Writes a file: the words with a part moved to the end, and the trailer.
fn write(words: &[u32], at: usize, end: usize, clauses: usize, file: &mut [u32])
    requires { Parted words.now at end clauses file.old }
    ensures { file.new ≡ sealed (at_front (moved_last words.now at end) file.old) (length words.now) (at + (length words.now - end)) clauses }
{
    let count = words.len();
    let question = at + (count - end);
    append(file, 0, &words[0..at]);
    append(file, at, &words[end..count]);
    append(file, question, &words[at..end]);
    seal(file, count, question, clauses);
}

pub(crate) fn refused(status: u32, place: u32) -> TextRead
    ensures { result ≡ refused status place }
{
    TextRead {
        status,
        place,
        words: 0,
    }
}

// Writes the file of a text with one question, unless a limit is passed or the question has a positive literal.
pub(crate) fn finish(
    text: &[u8],
    marks: &[u32],
    places: &[u32],
    words: &mut [u32],
    clauses: usize,
    file: &mut [u32],
) -> TextRead
    requires { Askable text.now marks.now places.now words.old file.old clauses }
    ensures { Reads text.now file.old result file.new }
{
    if !make(text, marks, places, words) {
        return refused(19, 0);
    }
    let at = seek(marks, 0, 5);
    let end = seek(marks, at + 1, 4);
    if seek(marks, at + 1, 3) != end {
        return refused(9, 0);
    }
    write(words, at, end, clauses, file);
    TextRead {
        status: 0,
        place: 0,
        words: words.len() as u32 + 4,
    }
}
