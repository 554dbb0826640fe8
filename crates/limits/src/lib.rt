// The clause and the limit, where a text is over a limit (status 19).
#![tactic(auto)]

pub mod find;
pub mod tell;
