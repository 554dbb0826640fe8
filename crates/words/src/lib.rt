// Words: the fields of a 32-bit word, steps, the fingerprint, and words made of bytes.
#![tactic(auto)]

pub mod bytes;
pub mod fields;
pub mod fingerprint;
pub mod room;
pub mod steps;

// A step is a reduction with its height, an extension with its clause and literal, or a restart (order 11); any other word is malformed.
#[derive(Clone, Copy)]
pub enum Step {
    Reduction(u32),
    Extension(u32, u32),
    Restart,
    Malformed,
}
