// Writing into a lent buffer from a position on. What has no room is not written, but counted: each function answers the position
// after its text, past the buffer's end where the text does not fit.
ghost use Rattle.std.specs.Prelude.{◌≡◌, [], ◌∷◌, ◌++◌, ◌+◌, ◌-◌, ◌^◌, ◌≤◌, ◌<◌, min, slice_set};
ghost use Rattle.text.specs.Put.{Put};
ghost use Rattle.text.specs.Digits.{glyph_of, digits_of, significant, hex_text, decimal_text, spaced_text, words_text, pairs_text, bytes_text, long_decimal_text};

// Stores an element where there is room for it; the position after it, which stops at the largest.
fn store<T: Copy>(out: &mut [T], at: usize, element: T) -> usize
    ensures stored { out.new ≡ slice_set out.old at element }
    ensures next { result ≡ min (at + 1) (2 ^ 64 - 1) }
{
    if at < out.len() {
        out[at] = element;
    }
    at.saturating_add(1)
}

// A name for each type of element: `Put` speaks of lists of numbers.
pub fn byte(out: &mut [u8], at: usize, b: u8) -> usize
    ensures { Put out.old at (b ∷ []) out.new result }
{
    store(out, at, b)
}

pub fn word(out: &mut [u32], at: usize, w: u32) -> usize
    ensures { Put out.old at (w ∷ []) out.new result }
{
    store(out, at, w)
}

pub fn place(out: &mut [usize], at: usize, n: usize) -> usize
    ensures { Put out.old at (n ∷ []) out.new result }
{
    store(out, at, n)
}

#[tactic(auto, using(crate::proofs::Putting::begin, crate::proofs::Written::byte_last))]
pub fn bytes(out: &mut [u8], from: usize, text: &[u8]) -> usize
    ensures { Put out.old from text.now out.new result }
{
    let mut at = from;
    for b in text {
        at = byte(out, at, *b);
    }
    at
}

fn glyph(d: u64) -> u8
    requires { d < 16 }
    ensures { result ≡ glyph_of d }
{
    if d < 10 {
        b'0' + d as u8
    } else {
        b'A' - 10 + d as u8
    }
}

// The last digits of a number, so many. `highest` is the power of the base in the first of them.
#[tactic(auto, using(crate::proofs::Putting::begin, crate::proofs::Written::digit_below, crate::proofs::Written::digit_last))]
fn digits(out: &mut [u8], from: usize, n: u64, base: u64, count: u32, highest: u64) -> usize
    requires { (2 ≤ base) × (base ≤ 16) × (highest ≡ base ^ (count - 1)) }
    ensures { Put out.old from (digits_of base count n) out.new result }
{
    let mut at = from;
    let mut power = highest;
    for _ in 0..count {
        at = byte(out, at, glyph(n / power % base));
        power /= base;
    }
    at
}

// A word in eight hexadecimal digits.
pub fn hex(out: &mut [u8], at: usize, w: u32) -> usize
    ensures { Put out.old at (hex_text w) out.new result }
{
    digits(out, at, u64::from(w), 16, 8, 0x1000_0000)
}

// The last digits of a number in decimal, so many, without the zeros in front of the first that counts.
// `highest` is the power of ten in the first of them: where it is a constant, so is each power, and no division is left.
#[tactic(auto, using(crate::proofs::Written::digit_below, crate::proofs::Written::counted_last))]
fn counted(out: &mut [u8], from: usize, n: u64, places: u32, highest: u64) -> usize
    requires { (1 ≤ places) × (highest ≡ 10 ^ (places - 1)) × (n < 10 ^ places) }
    ensures { Put out.old from (significant (digits_of 10 places n)) out.new result }
{
    let mut at = from;
    let mut power = highest;
    for left in (0..places).rev() {
        if power <= n || left == 0 {
            at = byte(out, at, glyph(n / power % 10));
        }
        power /= 10;
    }
    at
}

// A word in decimal digits, with no zeros in front.
pub fn decimal(out: &mut [u8], at: usize, w: u32) -> usize
    ensures { Put out.old at (decimal_text w) out.new result }
{
    counted(out, at, u64::from(w), 10, 1_000_000_000)
}

// A number of 64 bits in decimal digits, with no zeros in front.
pub fn long_decimal(out: &mut [u8], at: usize, n: u64) -> usize
    ensures { Put out.old at (long_decimal_text n) out.new result }
{
    counted(out, at, n, 20, 10_000_000_000_000_000_000)
}

// Words, each with a space before it.
#[tactic(auto, using(crate::proofs::Putting::begin, crate::proofs::Written::spaced_last))]
pub fn spaced(out: &mut [u8], from: usize, list: &[u32]) -> usize
    ensures { Put out.old from (spaced_text list.now) out.new result }
{
    let mut at = from;
    for w in list {
        let next = byte(out, at, b' ');
        at = hex(out, next, *w);
    }
    at
}

// Words with spaces between them; `-` stands for none.
#[tactic(auto, unfolding(crate::specs::Digits::words_text))]
pub fn list(out: &mut [u8], at: usize, list: &[u32]) -> usize
    ensures { Put out.old at (words_text list.now) out.new result }
{
    let [first, rest @ ..] = list else {
        return byte(out, at, b'-');
    };
    let next = hex(out, at, *first);
    spaced(out, next, rest)
}

// A byte in two hexadecimal digits.
fn pair(out: &mut [u8], at: usize, b: u8) -> usize
    ensures { Put out.old at (digits_of 16 2 b) out.new result }
{
    digits(out, at, u64::from(b), 16, 2, 16)
}

// Bytes run together.
#[tactic(auto, using(crate::proofs::Putting::begin, crate::proofs::Written::pairs_last))]
fn pairs(out: &mut [u8], from: usize, list: &[u8]) -> usize
    ensures { Put out.old from (pairs_text list.now) out.new result }
{
    let mut at = from;
    for b in list {
        at = pair(out, at, *b);
    }
    at
}

// Bytes run together; `-` stands for none.
pub fn byte_list(out: &mut [u8], at: usize, list: &[u8]) -> usize
    ensures { Put out.old at (bytes_text list.now) out.new result }
{
    if list.is_empty() {
        return byte(out, at, b'-');
    }
    pairs(out, at, list)
}

// A name and a number.
pub fn field(out: &mut [u8], at: usize, name: &[u8], value: u32) -> usize
    ensures { Put out.old at (name.now ++ decimal_text value) out.new result }
{
    let next = bytes(out, at, name);
    decimal(out, next, value)
}

// A name and a number of 64 bits.
pub fn long_field(out: &mut [u8], at: usize, name: &[u8], value: u64) -> usize
    ensures { Put out.old at (name.now ++ long_decimal_text value) out.new result }
{
    let next = bytes(out, at, name);
    long_decimal(out, next, value)
}
