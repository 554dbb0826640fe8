// The fingerprint: 32-bit FNV-1a over bytes and over words (document 01, "Words of the question file").
ghost use Rattle.std.specs.Prelude.{◌≡◌, ◌<◌, [], ◌∷◌};
ghost use Rattle.words.specs.Fields.{bits};
ghost use Rattle.words.specs.Fingerprint.{product, mixed, fnv, word_bytes, fingerprint};

use crate::bytes::small;
use crate::fields::bits;
use std::num::wrapping_add_u32;

// What the fingerprint of no words is.
pub const BASIS: u32 = 0x811C_9DC5;

// The product by the prime, keeping the low 32 bits: the prime is 2^24 + 2^8 + 2^7 + 2^4 + 2 + 1.
#[tactic(auto, using(crate::proofs::Fingerprints::from_copies))]
pub fn product(h: u32) -> u32
    ensures { result ≡ product h }
{
    let high = wrapping_add_u32(h << 24, h << 8);
    let middle = wrapping_add_u32(h << 7, h << 4);
    let low = wrapping_add_u32(h << 1, h);
    wrapping_add_u32(high, wrapping_add_u32(middle, low))
}

#[tactic(auto, using(crate::proofs::Fingerprints::mixed_one))]
pub fn mix_byte(h: u32, b: u32) -> u32
    ensures { result ≡ mixed h (b ∷ []) }
{
    product(h ^ b)
}

// Mixes in the byte of a word that begins at a given bit.
fn mix_part(h: u32, w: u32, from: u32) -> u32
    requires { from < 32 }
    ensures { result ≡ mixed h (bits from 8 w ∷ []) }
{
    mix_byte(h, bits(w, from, 8))
}

// Each word lowest byte first.
#[tactic(auto, using(crate::proofs::Fingerprints::by_bytes))]
pub fn mix_word(h: u32, w: u32) -> u32
    ensures { result ≡ mixed h (word_bytes w) }
{
    let first = mix_part(h, w, 0);
    let second = mix_part(first, w, 8);
    let third = mix_part(second, w, 16);
    mix_part(third, w, 24)
}

#[tactic(auto, using(crate::proofs::Fingerprints::begin_words, crate::proofs::Fingerprints::turn_words, crate::proofs::Fingerprints::finish_words))]
pub fn of_words(words: &[u32]) -> u32
    ensures { result ≡ fingerprint words.now }
{
    let mut h = BASIS;
    for w in words {
        h = mix_word(h, *w);
    }
    h
}

#[tactic(auto, using(crate::proofs::Fingerprints::begin_bytes, crate::proofs::Fingerprints::turn_bytes, crate::proofs::Fingerprints::finish_bytes))]
pub fn of_bytes(text: &[u8]) -> u32
    ensures { result ≡ fnv text.now }
{
    let mut h = BASIS;
    for b in text {
        h = mix_byte(h, small(*b));
    }
    h
}
