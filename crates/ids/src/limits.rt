// The specification's limits, for code and for the lengths of arrays.
pub const MOST_TABLES: usize = 16;

// Pairs held, and vectors held.
pub const MOST_HELD: usize = 256;

pub const LONGEST_NAME: usize = 32;

// The names of all live tables, one after another.
pub const NAME_BYTES: usize = MOST_TABLES * LONGEST_NAME;

// The operations of a commit, and of a frame.
pub const MOST_OPERATIONS: usize = 600;

// The bytes of a line with its newline, at most.
pub const LONGEST_LINE: usize = 57;

// The lines of a commit.
pub const LINE_BYTES: usize = MOST_OPERATIONS * LONGEST_LINE;

pub const LAST_EPOCH: u32 = u32::MAX;

// The largest value of each width: no id.
pub const LARGEST_32: u32 = u32::MAX;

pub const LARGEST_64: u64 = u64::MAX;

// Bytes of a manifest.
pub const LONGEST_MANIFEST: usize = 65536;

// Bytes of a rewritten manifest.
pub const LONGEST_REWRITTEN: usize = 18625;
