// The verbs of the line protocol that are asked as a search or a check is: the row, the call with its buffers, the result line.
#![tactic(auto)]

mod asker;
pub mod check;
mod report;
pub mod search;
