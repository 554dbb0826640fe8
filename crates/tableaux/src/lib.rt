// The tableau on lent words: its leaves, and the steps on them.
#![tactic(auto)]

pub mod tableau;
