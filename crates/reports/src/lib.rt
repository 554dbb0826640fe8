// What the program for people reads and says for a season and for the desk: the clauses of a text one by one, records as lines, the reports in plain words.
#![tactic(auto)]

pub mod clauses;
pub mod counts;
pub mod lines;
pub mod records;
pub mod said;
