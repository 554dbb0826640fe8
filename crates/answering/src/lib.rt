// `ask` of the program for people, from the bytes of a text to the bytes that are written.
#![tactic(auto)]

pub mod ask;
pub mod behind;
mod look;
mod progress;
mod question;
pub mod refuse;
mod rooms;
mod tell;

// What is asked: the largest bound, the tries for all bounds, and whether the proof is to be written.
#[derive(Clone, Copy)]
pub struct Options {
    pub limit: u32,
    pub budget: u32,
    pub proof: bool,
}
