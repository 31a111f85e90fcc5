// The limits of a search.

// the most steps of the branch
pub const MOST_STEPS: u16 = 512;

// the most cells
pub const MOST_CELLS: u16 = 2048;

// the most tries that one call may be allowed
pub const MOST_TRIES: u32 = 1_000_000;
