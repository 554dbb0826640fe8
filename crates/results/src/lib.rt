// The line protocol of `calls`, written: a result line for each call, and what is looked for in the lent buffers.
#![tactic(auto)]

pub mod buffers;
pub mod clause;
pub mod counts;
pub mod desk;
pub mod least;
pub mod line;
pub mod outcome;
pub mod slimmed;
pub mod textual;
