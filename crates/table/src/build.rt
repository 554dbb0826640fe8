// A question file built in a buffer: words put behind those that stand, and the trailer sealed behind the body.
ghost use Rattle.std.specs.Prelude.{◌≡◌, ◌+◌, ◌≤◌, length};
ghost use Rattle.table.specs.Build.{behind, sealed};

use words::fingerprint;

// Copies words into a file from a place on, word by word: `copy_from_slice` would have the archive for C want one more name from outside.
#[tactic(auto, using(crate::proofs::Building::copy_begin, crate::proofs::Building::copy_in, crate::proofs::Building::copy_done))]
pub fn append(file: &mut [u32], at: usize, words: &[u32])
    requires { at + length words.now ≤ length file.old }
    ensures { file.new ≡ behind file.old at words.now }
{
    for (i, word) in words.iter().enumerate() {
        file[at + i] = *word;
    }
}

// Writes the trailer behind a body of so many words that stands at the front.
pub fn seal(file: &mut [u32], body: usize, question: usize, clauses: usize)
    requires { (body + 4 ≤ length file.old) × (body ≤ 16000) × (question ≤ 16000) × (clauses ≤ 512) }
    ensures { file.new ≡ sealed file.old body question clauses }
{
    let mixed = fingerprint::of_words(&file[..body]);
    let words = [question as u32, clauses as u32, mixed, body as u32];
    append(file, body, &words);
}
