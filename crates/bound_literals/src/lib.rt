// What the variables of a tableau are bound to: each literal of each copy under what steps have bound, as far as a stated number of words.
#![tactic(auto)]

pub mod call;
mod replay;
mod slot;
mod walk;
