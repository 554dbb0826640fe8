// Names numbered by their first use.
ghost use Rattle.std.specs.Prelude.{◌≡◌, ◌≤◌, ◌<◌, length};
ghost use Rattle.names.specs.Noting.{names_at, uses_of, Numbering};
ghost use Rattle.names.specs.Marks.{letters};

use crate::{known, tree};

// So many names are looked through one by one.
const FEW: usize = 16;

fn by_looking(text: &[u8], starts: &[u32], words: &mut [u32], kind: u32, limit: usize) -> usize
    requires { (length starts.now ≡ length words.old) × (kind < 3) × (limit ≤ 4096) }
    ensures { Numbering text.now starts.now words.old kind limit words.new result }
{
    // one place more than the limit, so that there is room for the name that is too many
    let mut places = [0u32; 4097];
    known::number(text, starts, words, kind, limit, &mut places)
}

fn by_tree(text: &[u8], starts: &[u32], words: &mut [u32], kind: u32, limit: usize) -> usize
    requires { (length starts.now ≡ length words.old) × (kind < 3) × (limit ≤ 4096) × (letters (uses_of kind words.old (names_at text.now starts.now)) ≤ 65536) }
    ensures { Numbering text.now starts.now words.old kind limit words.new result }
{
    let mut memory = [0u32; tree::ROOM];
    tree::number(text, starts, words, kind, limit, &mut memory)
}

// Adds to each word of a kind the number of its name, and tells how many different names there are. Where there are more than the limit, the
// words are left half done.
pub fn number(text: &[u8], starts: &[u32], words: &mut [u32], kind: u32, limit: usize) -> usize
    requires { (length starts.now ≡ length words.old) × (kind < 3) × (limit ≤ 4096) }
    ensures { Numbering text.now starts.now words.old kind limit words.new result }
{
    if limit <= FEW {
        return by_looking(text, starts, words, kind, limit);
    }
    if tree::fits(text, starts, words, kind) {
        return by_tree(text, starts, words, kind, limit);
    }
    by_looking(text, starts, words, kind, limit)
}
