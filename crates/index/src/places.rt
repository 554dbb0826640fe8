// Where the notes stand in the lent work words (docs/MEMORY.md).

// What the scans of a search have cost, in words, before its literals are noted.
pub const SCANNED: usize = 35;
// How many literals are noted.
pub const NOTED: usize = 4095;
// Three words for each literal, by its number: where it stands; the next literal with its word, and the first; the next last of a word with its key.
pub const NOTES: usize = 4096;
// For each clause the number of its first literal.
pub const CLAUSES: usize = 14848;
// For each key the first literal that is the last with its word.
pub const HEADS: usize = 15360;
// How many keys there are.
pub const KEYS: usize = 1024;
