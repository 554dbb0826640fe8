// The clauses that are kept, counted and then written, the question last.
ghost use Rattle.std.specs.Prelude.{[], ◌∷◌, ◌++◌, ◌≡◌, ◌+◌, ◌≤◌, length};
ghost use Rattle.table.specs.Build.{at_front};
ghost use Rattle.table.specs.Encode.{file_words};
ghost use Rattle.table.specs.File.{table_in};
ghost use Rattle.slim.specs.Dropping.{remaining};
ghost use Rattle.slim.specs.Walking.{Ready, kept_words, kept_numbers, Sized};

use crate::dropping;
use table::build;

// The slimmer file: where its question begins, the words of its body, and its clauses.
#[derive(Drop)]
pub struct Size {
    pub question: usize,
    pub body: usize,
    pub clauses: usize,
}

#[tactic(auto, using(crate::proofs::Walks::walk_before, crate::proofs::Walks::walk_ended, crate::proofs::Copying::count_laws))]
pub fn measure(file: &[u32], question: usize, present: &[bool]) -> Size
    requires { Ready file.now question × (length present.now ≡ length (table_in file.now).clauses) }
    ensures { Sized (remaining (table_in file.now) present.now) result }
{
    let mut next = 0;
    let mut words = 0;
    let mut clauses = 0;
    for kept in present {
        let at = next;
        next = dropping::after(file, at);
        if !*kept {
            continue;
        }
        words += next - at;
        clauses += 1;
    }
    let end = dropping::after(file, question);
    Size {
        question: words,
        body: words + (end - question),
        clauses: clauses + 1,
    }
}

// Copies the clauses that are kept before the question to the front of the slimmer file.
fn copy_clauses(file: &[u32], question: usize, present: &[bool], slimmer: &mut [u32])
    requires ready { Ready file.now question × (length present.now ≡ length (table_in file.now).clauses) }
    requires present_in_bounds { length (kept_words (table_in file.now) present.now) ≤ length slimmer.old }
    ensures { slimmer.new ≡ at_front (kept_words (table_in file.now) present.now) slimmer.old }
{
    let mut next = 0;
    let mut words = 0;
    for kept in present {
        let at = next;
        next = dropping::after(file, at);
        if !*kept {
            continue;
        }
        build::append(slimmer, words, &file[at..next]);
        words += next - at;
    }
}

// Writes the numbers of the flags that are set, and the number after the last flag, which is the question's.
#[tactic(auto, using(crate::proofs::Copying::number_laws))]
pub(crate) fn number(present: &[bool], numbers: &mut [u32])
    requires present_len_bound { length present.now ≤ 512 }
    requires present_in_bounds { length (kept_numbers present.now) + 1 ≤ length numbers.old }
    ensures { numbers.new ≡ at_front (kept_numbers present.now ++ (length present.now ∷ [])) numbers.old }
{
    let mut count = 0;
    for (number, kept) in present.iter().enumerate() {
        if !*kept {
            continue;
        }
        numbers[count] = number as u32;
        count += 1;
    }
    numbers[count] = present.len() as u32;
}

// The slimmer file: the clauses that are kept, the question behind them, and the trailer.
#[tactic(auto, using(crate::proofs::Telling::write_laws))]
pub fn write(file: &[u32], question: usize, present: &[bool], slimmer: &mut [u32], size: Size)
    requires ready { Ready file.now question × (length present.now ≡ length (table_in file.now).clauses) }
    requires sized { Sized (remaining (table_in file.now) present.now) size }
    requires body_in_bounds { size.body + 4 ≤ length slimmer.old }
    ensures { slimmer.new ≡ at_front (file_words (remaining (table_in file.now) present.now)) slimmer.old }
{
    let begins = size.question;
    copy_clauses(file, question, present, slimmer);
    let end = dropping::after(file, question);
    build::append(slimmer, begins, &file[question..end]);
    build::seal(slimmer, size.body, begins, size.clauses);
}
