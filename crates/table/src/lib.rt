// Table: reading a question file (document 01, statuses 4 to 9, and document 02's 21), and looking up a clause.
#![tactic(auto)]

pub mod build;
pub mod file;
pub mod read;

// The judgement of a file: status and place as document 01 numbers them; of an accepted file the number of clauses and where the question begins.
#[derive(Clone, Copy)]
pub struct Judgement {
    pub status: u32,
    pub place: u32,
    pub clauses: usize,
    pub question: usize,
}
