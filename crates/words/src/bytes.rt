// Words made of bytes, each word lowest byte first (document 01, "The program").
ghost use Rattle.std.specs.Prelude.{◌≡◌, ◌+◌, ◌*◌, ◌/◌, ◌<◌, ◌≤◌, min, ◌++◌, length, take, drop, slice_index};
ghost use Rattle.words.specs.Bytes.{word_of, words_of};

// A byte as a number.
pub fn small(b: u8) -> u32
    ensures { (result ≡ b) × (result < 256) }
{
    b as u32
}

// The word that stands at a place.
fn word_at(bytes: &[u8], at: usize) -> u32
    requires { at + 4 ≤ length bytes.now }
    ensures { result ≡ word_of (slice_index bytes.now at) (slice_index bytes.now (at + 1)) (slice_index bytes.now (at + 2)) (slice_index bytes.now (at + 3)) }
{
    u32::from_le_bytes([bytes[at], bytes[at + 1], bytes[at + 2], bytes[at + 3]])
}

// Puts the words of the bytes at the front of a buffer, as many as it has room for; later words stay as they are.
#[tactic(auto, using(crate::proofs::Gathered::stored))]
pub fn gather(bytes: &[u8], out: &mut [u32]) -> usize
    ensures value { result ≡ min (length bytes.now / 4) (length out.old) }
    ensures out_after { out.new ≡ take result (words_of bytes.now) ++ drop result out.old }
{
    let n = (bytes.len() / 4).min(out.len());
    for i in 0..n {
        out[i] = word_at(bytes, i * 4);
    }
    n
}
