// Document 01's program, from the bytes that it reads to the bytes that it writes.
#![tactic(auto)]

pub mod program;
mod report;
