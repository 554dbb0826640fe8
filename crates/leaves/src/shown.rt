// Clauses and their literals in the names of a text.
ghost use Rattle.std.specs.Prelude.{◌≡◌, ◌≤◌, length};
ghost use Rattle.text.specs.Put.{Put};
ghost use Rattle.leaves.specs.Shown.{clause_in, size_in, sizes_in, question_in, literal_shown, literal_cut, name_cut, cut_to, literal_word_in};

use naming::{lookup, show};
use table::file;
use text::{part, put};
use words::fields;
use words::fields::wide;

// The words of a clause.
pub(crate) fn clause(file: &[u32], number: usize) -> &[u32]
    ensures result_value { result.now ≡ clause_in file.now number }
    ensures result_len_bound { length result.now ≤ 256 }
{
    file::lookup(file, number)
}

// How many literals a clause has.
fn size(file: &[u32], number: usize) -> u32
    ensures { result ≡ size_in file.now number }
{
    let own = clause(file, number);
    if own.is_empty() {
        return 0;
    }
    fields::literals(own[0])
}

// How many literals each clause has.
pub fn sizes(file: &[u32], out: &mut [u32]) -> usize
    ensures { Put out.old 0 (sizes_in file.now) out.new result }
{
    let mut at = 0;
    for number in 0..512 {
        at = put::word(out, at, size(file, number));
    }
    at
}

// The number of the question, which is the last clause.
pub fn question(file: &[u32]) -> u32
    ensures { result ≡ question_in file.now }
{
    if file.len() < 4 {
        return 0;
    }
    file[file.len() - 4 + 1].saturating_sub(1)
}

// A literal as its clause has it.
pub fn literal(
    text: &[u8],
    index: &[u32],
    file: &[u32],
    number: u32,
    literal: u32,
    out: &mut [u8],
    from: usize,
) -> usize
    requires { length index.now ≡ 16896 }
    ensures { Put out.old from (literal_shown text.now index.now file.now number literal) out.new result }
{
    let own = show::literal(clause(file, wide(number)), wide(literal));
    let variables = lookup::variables(index, wide(number));
    show::words(text, index, variables, 1, own, out, from)
}

// A text up to so many bytes, cut where it is longer.
pub(crate) fn cut(own: &[u8], most: usize, out: &mut [u8], from: usize) -> usize
    ensures { Put out.old from (cut_to most own.now) out.new result }
{
    if own.len() <= most {
        return put::bytes(out, from, own);
    }
    let front = put::bytes(out, from, part::front(own, most));
    put::bytes(out, front, b"...")
}

// A literal up to 120 bytes: a byte more is written elsewhere, so that a longer one is known.
pub fn literal_cut(
    text: &[u8],
    index: &[u32],
    file: &[u32],
    number: u32,
    which: u32,
    out: &mut [u8],
    from: usize,
) -> usize
    requires { length index.now ≡ 16896 }
    ensures { Put out.old from (literal_cut text.now index.now file.now number which) out.new result }
{
    let mut space = [0u8; 121];
    let n = literal(text, index, file, number, which, &mut space, 0);
    cut(part::front(&space, n), 120, out, from)
}

pub fn name_cut(text: &[u8], index: &[u32], number: u32, out: &mut [u8], from: usize) -> usize
    requires { length index.now ≡ 16896 }
    ensures { Put out.old from (name_cut text.now index.now number) out.new result }
{
    cut(lookup::clause(text, index, wide(number)), 60, out, from)
}

// The word of a literal; 0 where there is none.
pub fn literal_word(file: &[u32], number: u32, which: u32) -> u32
    ensures { result ≡ literal_word_in file.now number which }
{
    let own = show::literal(clause(file, wide(number)), wide(which));
    if own.is_empty() {
        return 0;
    }
    own[0]
}
