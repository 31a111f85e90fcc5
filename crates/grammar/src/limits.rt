// The limits of books, rules and queries, and the sizes of a header and a world.

// the most bytes of a book
pub const MOST_BYTES: usize = 16384;

// the most rules of a book
pub const MOST_RULES: u16 = 1024;

// the most variables that a rule or a query may declare
pub const MOST_VARIABLES: u8 = 64;

// the most goals of a rule or a query
pub const MOST_GOALS: u8 = 16;

// the longest length that a header may state
pub const LONGEST: usize = 512;

// how many bytes a header has
pub const HEADER: usize = 5;

// how many bytes a world has
pub const WORLD_SIZE: usize = 2;
