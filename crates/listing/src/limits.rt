// The limits of a listing.

// the allowance of each call
pub const ALLOWANCE: u32 = 1_000;

// the most calls
pub const MOST_CALLS: usize = 100;

// how many bytes a slip may have
pub const SLIP_ROOM: usize = 32_768;
