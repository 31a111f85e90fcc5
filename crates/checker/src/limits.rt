// The sizes of the parts of slips, and how much the tables hold.
use grammar::limits::{HEADER, MOST_VARIABLES};
use resolution::limits::MOST_STEPS;

// how many bytes stand before the terms of the query's variables, and before those of a step
pub(crate) const OPENING_SIZE: usize = 2;

pub(crate) const STEP_SIZE: usize = 4;

// where a rule says how many variables it has, and where its head begins
pub(crate) const VARIABLES: u16 = 1;

pub(crate) const HEAD: u16 = HEADER as u16;

// cursors at goals of the query and of the steps
pub(crate) const FRAMES: usize = MOST_STEPS as usize + 1;

// terms of the query's variables and of the steps
pub(crate) const TERMS: usize = MOST_VARIABLES as usize * FRAMES;
