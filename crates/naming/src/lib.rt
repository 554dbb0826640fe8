// Names come back: the names of a text by their numbers, and words shown in them.
#![tactic(auto)]

pub mod clauses;
mod first;
pub mod index;
pub mod lookup;
pub mod show;
