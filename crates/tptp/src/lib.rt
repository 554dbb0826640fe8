// TPTP clause text in (document 02, order 1).
#![tactic(auto)]

pub mod body;
pub mod call;
pub mod last;
pub mod shape;
pub mod sketch;

// What reading a text returns: status and place as document 02 numbers them, and the number of the file's words.
#[repr(C)]
#[derive(Drop)]
pub struct TextRead {
    pub status: u32,
    pub place: u32,
    pub words: u32,
}
