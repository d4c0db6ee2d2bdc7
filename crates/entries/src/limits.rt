// The numbers of document 01 for a tracker.

// Bytes of an entry, of a step and of a place of the queue.
pub const ENTRY_SIZE: usize = 24;

pub const STEP_SIZE: usize = 8;

pub const PLACE_SIZE: usize = 516;

pub const MAX_ENTRIES: usize = 16384;

// A count's greatest value, 2^30.
pub const MAX_COUNT: u32 = 1073741824;

pub const MAX_STEPS: u32 = 64;

pub const MAX_WINDOW: u32 = 1024;

// Paths accepted since an opening.
pub const MAX_ACCEPTED: u32 = 16777216;
