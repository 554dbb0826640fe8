// The answer of a closed tableau on lent words: which copies of the question are told, and their words.
#![tactic(auto)]

pub mod answer;
pub mod once;
