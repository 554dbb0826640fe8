// Writing: bytes, words and numbers put into a lent buffer, counted past its end.
#![tactic(auto)]

pub mod part;
pub mod put;
