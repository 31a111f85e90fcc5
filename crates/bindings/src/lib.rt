// Bindings on a trail, and what a term means under them. The definitions stand in specs/ and the lemmas in
// proofs/; the types below are shared by them and by the code that keeps to them.
#![tactic(auto)]

// A term: a place in the text, and the cell of its variable 0.
#[derive(Clone, Copy, PartialEq, Eq, Debug, Default)]
pub struct TermAt {
    pub place: u16,
    pub level: u16,
}

// What a variable in use is bound to, and the cell that was bound before it. A cell holds its variable's binding, or none
// where the variable is free.
#[derive(Clone, Copy, PartialEq, Eq, Debug)]
pub struct Binding {
    pub term: TermAt,
    pub before: u16,
}

// What stands for the newest bound cell where none is bound. A number and not an Option: with an Option the loop that goes
// back to a mark has a second case that never comes, and each cell takes two bytes more.
pub const NONE_BOUND: u16 = 0xFFFF;

// The form of a term under the bindings: what it shows when bound cells are looked up.
#[derive(Clone, Copy, PartialEq, Eq, Debug)]
pub enum Shape {
    // a cell without a binding
    Open(u16),
    Atom(u16),
    // where the pair stands
    Pair(TermAt),
}
