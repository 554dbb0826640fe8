// Where the engine's state stands in the lent work words (docs/MEMORY.md).
ghost use Rattle.std.specs.Prelude.{◌≡◌, ◌++◌, ◌+◌, ◌*◌, ◌/◌, ◌%◌, ◌≤◌, ◌<◌, length, take, drop, set, replicate};
ghost use Rattle.unification.specs.Places.{most_variables, most_references, work_words};
ghost use Rattle.unification.specs.State.{start_at, count_of};
ghost use Rattle.unification.specs.Good.{Inside, word_at, variable_at, pushed};

pub const ROOM: usize = 16384;
// The places below end here; no word from here on is read.
pub const USED: usize = 2816;

// The position of each copy's clause word in the file, by copy.
pub const STARTS: usize = 0;
// How many copies there are: the start, and one for each extension.
pub const COPIES: usize = 33;
// How many variables are bound.
pub const COUNT: usize = 34;
// The variables that are bound, in the order of binding.
pub const TRAIL: usize = 64;
// What each variable is bound to, by variable: 0 where it is free, else a reference and one.
pub const BOUND: usize = 640;
// The leaves, by number: the reference of the literal, the parent, and the next open leaf to the right.
pub const LITERAL: usize = 1216;

pub const PARENT: usize = 1472;

pub const NEXT: usize = 1728;
// The steps taken, in order.
pub const STEPS: usize = 1984;
// The answer's number of each variable, and one.
pub const NUMBERS: usize = 2240;
// By copy: 1 where the answer has what it says, 0 where an earlier copy says the same or it is no copy of the question.
pub const KEPT: usize = 2768;

// A reference is a copy's number times 256 and an offset within its clause; a variable is a copy's number times 16 and its number there.
pub fn position(work: &[u32], reference: u32) -> usize
    requires { reference / 256 < length work.now }
    ensures { result ≡ start_at work.now (reference / 256) + reference % 256 }
{
    words::fields::wide(work[STARTS + words::fields::wide(reference / 256)])
        + words::fields::wide(reference % 256)
}

pub fn word_at(file: &[u32], work: &[u32], reference: u32) -> u32
    requires { Inside file.now work.now reference }
    ensures { result ≡ word_at file.now work.now reference }
{
    file[position(work, reference)]
}

pub fn variable_at(reference: u32, word: u32) -> u32
    ensures { result ≡ variable_at reference word }
{
    reference / 256 * 16 + words::fields::number(word)
}

// So many words from a place on are zero.
pub fn clear(work: &mut [u32], from: usize, count: usize)
    requires { from + count ≤ length work.old }
    ensures { work.new ≡ take from work.old ++ replicate count 0 ++ drop (from + count) work.old }
{
    work[from..from + count].fill(0);
}

// One more binding.
pub fn push(work: &mut [u32], variable: u32, reference: u32)
    requires { (length work.old ≡ work_words) × (count_of work.old < most_variables) × (variable < most_variables) × (reference < most_references) }
    ensures { work.new ≡ pushed work.old variable reference }
{
    let count = work[COUNT];
    work[TRAIL + words::fields::wide(count)] = variable;
    work[BOUND + words::fields::wide(variable)] = reference + 1;
    work[COUNT] = count + 1;
}
