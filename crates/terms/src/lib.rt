// Terms, rules and queries, and the byte form of a term. The definitions stand in specs/.
#![tactic(auto)]

// How a term's variables are written in bytes.
#[derive(Clone, Copy, PartialEq, Eq, Debug)]
pub enum Form {
    // in rules and queries, where a variable has a number of one byte
    Rules,
    // in answers and slips, where an unknown has a number of two bytes
    Slips,
}
