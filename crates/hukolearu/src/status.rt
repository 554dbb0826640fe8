// The statuses that the calls give of themselves; 4 to 9 and 21 are the file's own, 12 to 15 and 20 the checker's.
pub const DONE: u32 = 0;

pub const WORK_TOO_SHORT: u32 = 1;

pub const PROOF_TOO_SHORT: u32 = 2;

pub const BOUND_TOO_HIGH: u32 = 3;

pub const NONE_FOUND: u32 = 10;

pub const RAN_OUT: u32 = 11;

pub const ANSWER_TOO_LONG: u32 = 16;
