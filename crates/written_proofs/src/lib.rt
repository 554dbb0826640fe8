// Proofs as text: steps as `reduce 1` or `extend NAME 2`, or in hexadecimal words.
#![tactic(auto)]

pub mod clause;
pub mod read;
pub mod write;
