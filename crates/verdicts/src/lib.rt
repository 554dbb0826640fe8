// A partner's proof judged in plain words: accepted, the step that is wrong with its leaf and its literals, or a text that is no proof.
#![tactic(auto)]

pub mod unreadable;
pub mod verdict;
