// What education sees of a file (document 02, order 8): a copy with the clauses that are not restricted, in their order, and the question.
#![tactic(auto)]

ghost use Rattle.std.specs.Prelude.{◌≡◌, length};
ghost use Rattle.table.specs.Build.{at_front};
ghost use Rattle.table.specs.File.{table_in};
ghost use Rattle.slim.specs.Walking.{Ready};
ghost use Rattle.seen.specs.Copying.{seen_flags, seen_file, seen_part};

use slim::{dropping, writing};
use words::fields;

// Which clauses before the question are seen: a flag for each.
fn flag_seen(file: &[u32], question: usize, present: &mut [bool])
    requires { Ready file.now question × (length present.old ≡ length (table_in file.now).clauses) }
    ensures { present.new ≡ seen_flags (table_in file.now) }
{
    let mut at = 0;
    for seen in present.iter_mut() {
        *seen = !fields::restricted(file[at]);
        at = dropping::after(file, at);
    }
}

// The file of an accepted one's clauses that are seen, at the front of a buffer; how many words it has.
#[tactic(auto, using(crate::proofs::Seeing::seen_laws))]
fn write_seen(file: &[u32], question: usize, present: &mut [bool], copy: &mut [u32]) -> usize
    requires { Ready file.now question × (length present.old ≡ length (table_in file.now).clauses) × (length copy.old ≡ 16000) }
    ensures { (result ≡ length (seen_file file.now)) × (copy.new ≡ at_front (seen_file file.now) copy.old) }
{
    flag_seen(file, question, present);
    let size = writing::measure(file, question, present);
    let words = size.body + 4;
    writing::write(file, question, present, copy, size);
    words
}

// The same of any file; of one that is refused there is no word.
#[tactic(auto, using(crate::proofs::Seeing::copy_laws))]
pub fn copy_seen(file: &[u32], copy: &mut [u32]) -> usize
    requires { length copy.old ≡ 16000 }
    ensures { (result ≡ length (seen_part file.now)) × (copy.new ≡ at_front (seen_part file.now) copy.old) }
{
    let judged = table::file::judge(file);
    if judged.status != 0 {
        return 0;
    }
    let mut flags = [false; 512];
    let rules = judged.clauses - 1;
    write_seen(file, judged.question, &mut flags[..rules], copy)
}
