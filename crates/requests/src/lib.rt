// The line protocol of `calls`, read: a line's pieces, and the fields of a request.
#![tactic(auto)]

pub mod bytes;
pub mod listed;
pub mod piece;
pub mod records;
pub mod request;
