// Terms of clause copies on lent words: where the state stands, references followed, atoms made equal.
#![tactic(auto)]

pub mod memory;
pub mod terms;
pub mod unify;
