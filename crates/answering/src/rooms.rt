// Room for what is read, found and written.
pub const ANSWER: usize = 4096;

// The words of a question file, and of a search's work.
pub const FILE: usize = 16384;

pub const INDEX: usize = 16896;

// The bytes of an answer or a proof as text; a longer text is cut.
pub const PAGE: usize = 262144;
