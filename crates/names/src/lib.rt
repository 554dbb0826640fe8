// Names: the names that stand in a text, numbered by their first use.
#![tactic(auto)]

mod known;
pub mod name;
pub mod table;
mod tree;
