// What the program for people says: refusals of a text with the place and what was expected, and results in plain words.
#![tactic(auto)]

pub mod convert;
pub mod excerpt;
pub mod expected;
pub mod place;
pub mod refusal;
pub mod result;
