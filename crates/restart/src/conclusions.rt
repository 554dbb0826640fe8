// Status 22: a clause other than the question without a positive literal, by which nothing could be entered.
ghost use Rattle.std.specs.Prelude.{◌≡◌, take, drop};
ghost use Rattle.std.specs.List.{list_any};
ghost use Rattle.table.specs.Body.{positive};
ghost use Rattle.table.specs.File.{judge};
ghost use Rattle.restart.specs.Conclusions.{first_negative};
ghost use Rattle.restart.specs.Walking.{unconcluded, conclusions_of};

use words::fields;

fn positive(word: u32) -> bool
    ensures { result ≡ positive word }
{
    fields::kind(word) == 2 && !fields::negative(word)
}

// Whether a positive literal stands among so many words from a position on.
fn concludes(words: &[u32], from: usize, count: usize) -> bool
    ensures { result ≡ list_any positive (take count (drop from words.now)) }
{
    words
        .iter()
        .skip(from)
        .take(count)
        .any(|word| positive(*word))
}

#[tactic(auto, using(crate::proofs::Walks::walk_begin, crate::proofs::Walks::walk_end, crate::proofs::Walks::walk_past, crate::proofs::Walks::walk_asked, crate::proofs::Walks::walk_missing, crate::proofs::Walks::walk_on))]
// Where the first clause without a positive literal begins, among the words of clauses back to back, before the question.
fn missing(words: &[u32], question: usize) -> Option<usize>
    ensures { result ≡ conclusions_of (unconcluded question 0 0 words.now) }
{
    let mut passing = 0;
    for (here, word) in words.iter().enumerate() {
        if passing != 0 {
            passing -= 1;
            continue;
        }
        if here == question {
            return None;
        }
        passing = fields::wide(fields::following(*word));
        if !concludes(words, here + 1, passing) {
            return Some(here);
        }
    }
    None
}

// The same of an accepted file.
pub fn judge(file: &[u32], question: usize) -> Option<usize>
    requires { ((judge file.now).status ≡ 0) × (question ≡ (judge file.now).question) }
    ensures { result ≡ conclusions_of (first_negative file.now) }
{
    let end = file.len() - 4;
    missing(&file[..end], question)
}
