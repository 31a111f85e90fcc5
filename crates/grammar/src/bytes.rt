// The first bytes of commands.

// ── terms ──

// an atom
pub const ATOM: u8 = 0x01;

// a variable
pub const VARIABLE: u8 = 0x02;

// a pair
pub const PAIR: u8 = 0x03;

// an unknown, which stands in answers and slips
pub const UNKNOWN: u8 = 0x04;

// ── rules, worlds and queries ──

// a rule
pub const RULE: u8 = 0x10;

// a world
pub const WORLD: u8 = 0x11;

// a query
pub const QUERY: u8 = 0x12;

// ── answers and slips ──

// an answer, or the answer that a slip begins with
pub const ANSWER: u8 = 0x20;

// a step of a slip
pub const STEP: u8 = 0x21;

// the last byte of a slip
pub const END: u8 = 0x2F;
