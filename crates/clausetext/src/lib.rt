// Clause text of the TPTP subset: whether a text is permitted, where it goes wrong, and its tokens.
#![tactic(auto)]

pub mod judge;
pub mod kind;
pub mod stuck;
pub mod token;
