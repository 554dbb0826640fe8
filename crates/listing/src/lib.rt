// Order 7: the clauses behind a proof, each with the number of its copies and its line.
#![tactic(auto)]

pub mod call;
pub mod counting;
mod lines;
