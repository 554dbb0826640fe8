// The public calls: a search, and the check of an offered proof.
#![tactic(auto)]

pub mod calls;
pub mod door;
pub mod status;

// What every search and every check of a proof returns; numbers not named are 0.
#[repr(C)]
#[derive(Clone, Copy)]
pub struct Outcome {
    pub status: u32,
    pub place: u32,
    pub proof: u32,
    pub disjuncts: u32,
    pub answer: u32,
    pub tries: u32,
}
