// Search and checker on lent words.
#![tactic(auto)]

pub mod check;
mod profile;
pub mod search;
mod vain;
mod walk;

// What a search or a check goes by: the bound, and whether positive leaves are restarted.
#[derive(Clone, Copy)]
pub struct Conditions {
    pub bound: u32,
    pub restarts: bool,
}
