// The names of a clause's variables, as parts of the caller's text.
#![tactic(auto)]

pub mod find;
pub mod own;
