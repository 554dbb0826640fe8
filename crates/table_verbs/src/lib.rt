// The verbs of the line protocol about tables and texts: the row, the call with its buffers, the result line.
#![tactic(auto)]

pub mod tables;
pub mod texts;
