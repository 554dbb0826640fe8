// Order 12: a slimmer file without repeats and dead clauses.
#![tactic(auto)]

mod asked;
pub mod calls;
pub mod dropping;
pub mod writing;

// What slimming gives: status and place as document 01 numbers them; the words and clauses of the slimmer file.
#[repr(C)]
#[derive(Drop)]
pub struct Slimmed {
    pub status: u32,
    pub place: u32,
    pub words: u32,
    pub clauses: u32,
}
