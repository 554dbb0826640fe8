// The public call: a question file in, its text out.
ghost use Rattle.std.specs.Prelude.{◌≡◌, length};
ghost use Rattle.table.specs.Build.{at_front};
ghost use Rattle.table.specs.File.{table_in};
ghost use Rattle.text.specs.Put.{Put};
ghost use Rattle.clauselines.specs.Lines.{table_text};
ghost use Rattle.clauselines.specs.Call.{refused, write_call};
ghost use Rattle.clauselines.specs.Writers.{Ready};

use crate::{TextWritten, line};
use words::fields;

pub fn refused(status: u32, place: u32) -> TextWritten
    ensures { result ≡ (refused status place).outcome }
{
    TextWritten {
        status,
        place,
        bytes: 0,
    }
}

// A line for each clause, the question's the last.
#[tactic(auto, using(crate::proofs::Walks::walk_laws))]
fn lines(file: &[u32], question: usize, out: &mut [u8]) -> usize
    requires { Ready file.now question }
    ensures { Put out.old 0 (table_text (table_in file.now)) out.new result }
{
    let mut at = 0;
    let mut number = 0;
    let mut end = 0;
    while at < question {
        let stop = at + (fields::wide(fields::following(file[at])) + 1);
        end = line::clause(&file[at..stop], number, false, out, end);
        at = stop;
        number += 1;
    }
    let stop = file.len() - 4;
    line::clause(&file[question..stop], number, true, out, end)
}

// The text is counted first, and written if it fits.
pub fn write(file: &[u32], text: &mut [u8]) -> TextWritten
    ensures value { result ≡ (write_call file.now (length text.old)).outcome }
    ensures text_after { text.new ≡ at_front (write_call file.now (length text.old)).text text.old }
{
    let judged = table::file::judge(file);
    if judged.status != 0 {
        return refused(judged.status, judged.place);
    }
    let mut nowhere = [0u8; 0];
    let bytes = lines(file, judged.question, &mut nowhere);
    if text.len() < bytes {
        return refused(16, 0);
    }
    lines(file, judged.question, text);
    TextWritten {
        status: 0,
        place: 0,
        bytes: bytes as u32,
    }
}
