// The public call: the file's own refusals, then what is left of its clauses, if both buffers hold it.
ghost use Rattle.std.specs.Prelude.{◌≡◌, length};
ghost use Rattle.table.specs.Build.{at_front};
ghost use Rattle.table.specs.File.{table_in};
ghost use Rattle.slim.specs.Call.{refused, if_it_fits, slim_call};
ghost use Rattle.slim.specs.Walking.{Told};

use crate::asked::Asked;
use crate::{Slimmed, dropping, writing};

fn refused(status: u32, place: u32) -> Slimmed
    ensures { result ≡ (refused status place).outcome }
{
    Slimmed {
        status,
        place,
        words: 0,
        clauses: 0,
    }
}

// Which clauses are kept is found, counted and, if it fits, written.
fn slimmed(asked: Asked, present: &mut [bool], slimmer: &mut [u32], numbers: &mut [u32]) -> Slimmed
    requires { length present.old ≡ length (table_in asked.file.now).clauses }
    ensures { Told (if_it_fits (table_in asked.entry.file.now) (length slimmer.old) (length numbers.old)) result slimmer.old slimmer.new numbers.old numbers.new }
{
    dropping::settle(asked, present);
    let size = writing::measure(asked.file, asked.question, present);
    let words = size.body + 4;
    let clauses = size.clauses;
    if slimmer.len() < words {
        return refused(16, 0);
    }
    if numbers.len() < clauses {
        return refused(16, 0);
    }
    writing::write(asked.file, asked.question, present, slimmer, size);
    writing::number(present, numbers);
    Slimmed {
        status: 0,
        place: 0,
        words: words as u32,
        clauses: clauses as u32,
    }
}

#[tactic(auto, using(crate::proofs::Telling::accepted_laws, crate::proofs::Telling::call_laws))]
pub fn slim(file: &[u32], slimmer: &mut [u32], numbers: &mut [u32]) -> Slimmed
    ensures value { result ≡ (slim_call file.now (length slimmer.old) (length numbers.old)).outcome }
    ensures slimmer_after { slimmer.new ≡ at_front (slim_call file.now (length slimmer.old) (length numbers.old)).file slimmer.old }
    ensures numbers_after { numbers.new ≡ at_front (slim_call file.now (length slimmer.old) (length numbers.old)).numbers numbers.old }
{
    let judged = table::file::judge(file);
    if judged.status != 0 {
        return refused(judged.status, judged.place);
    }
    let mut flags = [false; 512];
    let rules = judged.clauses - 1;
    let asked = Asked {
        file,
        question: judged.question,
    };
    slimmed(asked, &mut flags[..rules], slimmer, numbers)
}
