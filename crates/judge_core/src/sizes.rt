// The sizes of the judge's arrays: a slot for each byte value, so that a job's byte is its slot; slot 0 belongs to no job.
use terms::limits::{CELLS, JUDGED_JOBS};

// The slots of jobs.
pub const SLOTS: usize = JUDGED_JOBS + 1;
// Where each slot's lines start, and where the last end.
pub const STOPS: usize = SLOTS + 1;
// Every slot and kind of action.
pub const KIND_SETS: usize = SLOTS * 3;
// Every cell, slot and kind of last line.
pub const KEYS: usize = CELLS as usize * SLOTS * 4;
