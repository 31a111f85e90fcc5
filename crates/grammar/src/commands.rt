// A command of a term. A pair's first part and its rest follow it.
#[derive(Clone, Copy, PartialEq, Eq, Debug)]
pub enum Command {
    Atom(u16),
    // a variable, or in answers and slips an unknown
    Var(u16),
    Pair,
}
