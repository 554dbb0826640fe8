// A tree of names, in which a name is found in the time of its bytes, whatever the others are. Stem 0 is the empty name; each further stem is an
// earlier one with a byte more, noted by its key: the earlier stem's number times 256, and the byte.
ghost use Rattle.std.specs.Prelude.{◌≡◌, List, [], true, ℕ, ◌+◌, ◌/◌, ◌≤◌, ◌<◌, length, IfSome, unwrap_or};
ghost use Rattle.names.specs.Numbers.{Name};
ghost use Rattle.names.specs.Noting.{name_at, names_at, uses_of, Numbering};
ghost use Rattle.names.specs.Tree.{spelt, Tree, Found, Onward, Entered};
ghost use Rattle.names.specs.Marks.{letters, Marks, Marked, Used};

use crate::{known, name};
use words::bytes::small;
use words::fields;
use words::fields::wide;

// A stem, and how many keys there are.
#[derive(Clone, Copy)]
struct Stem {
    stem: usize,
    stems: usize,
}

// The number of a name, and how many keys there are.
#[derive(Clone, Copy)]
struct Use {
    number: usize,
    stems: usize,
}

// Where a tree stands in its memory: the keys; for each key the one before it of the same earlier stem; for each stem the latest key after it; for
// each stem the number of its name. All but the keys are counted from 1, and 0 stands for none.
pub(crate) const ROOM: usize = 262146;

const BEFORE: usize = 65536;

const HEADS: usize = 131072;

const MARKS: usize = 196609;

// The number of a key, sought from the latest of the same earlier stem down: the keys are linked, so no index counts them.
#[tactic(auto, using(crate::proofs::Stems::looking_laws))]
fn find(memory: &[u32], count: usize, key: u32) -> Option<usize>
    requires { Tree memory.now count × (key / 256 ≤ 65536) }
    ensures within { IfSome result (λ number. number < count) }
    ensures found { Found memory.now count key (unwrap_or result count) }
{
    let mut at = wide(memory[HEADS + wide(key / 256)]);
    while at > 0 {
        if memory[at - 1] == key {
            return Some(at - 1);
        }
        at = wide(memory[BEFORE + (at - 1)]);
    }
    None
}

// The stem of a byte after a stem.
fn onward(memory: &mut [u32], count: usize, stem: usize, byte: u8) -> usize
    requires { Tree memory.old count × (stem ≤ count) × (count < 65536) }
    ensures { Onward memory.old count stem byte memory.new result }
{
    let key = stem as u32 * 256 + small(byte);
    if let Some(number) = find(memory, count, key) {
        return number + 1;
    }
    memory[count] = key;
    memory[BEFORE + count] = memory[HEADS + stem];
    memory[HEADS + stem] = count as u32 + 1;
    count + 1
}

// The stem of the name at a place.
fn enter(text: &[u8], memory: &mut [u32], count: usize, name: usize) -> Stem
    requires { Tree memory.old count × (count + length (name_at text.now name) ≤ 65536) }
    ensures { Entered text.now memory.old count name memory.new result.stem result.stems }
{
    let mut stem = 0;
    let mut stems = count;
    for c in name::at(text, name) {
        stem = onward(memory, stems, stem, *c);
        stems = stems.max(stem);
    }
    Stem { stem, stems }
}

// The number of the name of a stem, which is noted from now on.
fn mark(memory: &mut [u32], stem: usize, count: usize) -> usize
    requires { (length memory.old ≡ 262146) × (stem ≤ 65536) × (count ≤ 4096) }
    ensures { (stems : ℕ) (known : List Name) → Tree memory.old stems → stem ≤ stems → Marks memory.old stems known → length known ≡ count → Marked stems known memory.new (spelt memory.old stems stem) result }
{
    let noted = wide(memory[MARKS + stem]);
    if noted > 0 {
        return noted - 1;
    }
    memory[MARKS + stem] = count as u32 + 1;
    count
}

// A use of the name at a place.
fn note(text: &[u8], memory: &mut [u32], stems: usize, count: usize, name: usize) -> Use
    requires { Tree memory.old stems × (stems + length (name_at text.now name) ≤ 65536) × (count ≤ 4096) }
    ensures { (known : List Name) → Marks memory.old stems known → length known ≡ count → Used text.now stems name known memory.new result.number result.stems }
{
    let entered = enter(text, memory, stems, name);
    Use {
        number: mark(memory, entered.stem, count),
        stems: entered.stems,
    }
}

// The names of a kind have no more bytes than the tree has room for. Names that stand apart in a text of at most 65,536 bytes have not.
pub(crate) fn fits(text: &[u8], starts: &[u32], words: &[u32], kind: u32) -> bool
    requires { length starts.now ≡ length words.now }
    ensures { result ≡ true → letters (uses_of kind words.now (names_at text.now starts.now)) ≤ 65536 }
{
    let mut left: usize = 65536;
    for (i, w) in words.iter().enumerate() {
        if fields::kind(*w) != kind {
            continue;
        }
        let bytes = name::bytes(text, wide(starts[i]));
        if left < bytes {
            return false;
        }
        left -= bytes;
    }
    true
}

// Adds to each word of a kind the number of its name, in a tree that is empty.
pub(crate) fn number(
    text: &[u8],
    starts: &[u32],
    words: &mut [u32],
    kind: u32,
    limit: usize,
    memory: &mut [u32],
) -> usize
    requires starts_len { (length starts.now ≡ length words.old) × (kind < 3) × (limit ≤ 4096) }
    requires tree { Tree memory.old 0 × Marks memory.old 0 [] × (letters (uses_of kind words.old (names_at text.now starts.now)) ≤ 65536) }
    ensures { Numbering text.now starts.now words.old kind limit words.new result }
{
    let mut stems = 0;
    let mut count = 0;
    for (i, start) in starts.iter().enumerate() {
        let w = words[i];
        if fields::kind(w) != kind {
            continue;
        }
        let used = note(text, memory, stems, count, wide(*start));
        let n = used.number;
        if limit <= n {
            return limit + 1;
        }
        words[i] = name::with_number(w, n);
        stems = used.stems;
        count = known::grown(count, n);
    }
    count
}
