// A proof's leaves: which leaf each step treats; clauses and literals in the names of a text, and what their variables are bound to.
#![tactic(auto)]

pub mod bound;
pub mod leaf;
pub mod shown;
