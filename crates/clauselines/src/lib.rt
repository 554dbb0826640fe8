// Order 2: the text of a table.
#![tactic(auto)]

pub mod call;
pub mod line;

// What writing a text gives: status and place as document 01 numbers them, and the number of the text's bytes.
#[repr(C)]
#[derive(Drop)]
pub struct TextWritten {
    pub status: u32,
    pub place: u32,
    pub bytes: u32,
}
