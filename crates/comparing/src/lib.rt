// Terms of rules under the terms of a slip, read command by command, and compared so. The definitions stand in specs/ and
// the lemmas in proofs/; the types below are shared by them and by the code that keeps to them.
#![tactic(auto)]

// Where a text comes from.
#[derive(Clone, Copy, Default)]
pub enum Source {
    // the goals of the query
    #[default]
    Query,
    // the rule of the store with this number
    Rule(u16),
}

// Terms of the slip that are due where a variable stood: the next byte of the slip, and how many of them there are.
#[derive(Clone, Copy)]
pub struct Inside {
    pub place: usize,
    pub due: usize,
}

// A cursor over a text, whose variables stand for terms of the slip.
#[derive(Clone, Copy, Default)]
pub struct Cursor {
    pub source: Source,
    // the next byte of the text
    pub place: u16,
    // which entry of the table tells where the term of variable 0 begins
    pub first: usize,
    // what is still due of a variable's term; none outside one
    pub inside: Option<Inside>,
}

// How a step begins: the number of its rule, how many terms it has, and where they begin in the slip.
#[derive(Clone, Copy)]
pub struct StepStart {
    pub rule: u16,
    pub count: u8,
    pub terms: usize,
}
