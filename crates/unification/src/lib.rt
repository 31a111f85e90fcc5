// Ground terms, substitutions and Robinson's unification with the occurs check. The definitions stand in
// specs/; each function below carries a theorem about them in its contract.
#![tactic(auto)]

ghost use Rattle.unification.specs.Examples.{Worked};
ghost use Rattle.unification.specs.Laws.{Unifies, MostGeneral, Recursive};

// What unification finds makes the two terms equal.
pub fn unifies()
    ensures { Unifies }
{}

// Every replacement that makes the two terms equal is kept by what unification finds.
pub fn most_general()
    ensures { MostGeneral }
{}

// Unification meets its recursion equation without any bound.
pub fn recursive()
    ensures { Recursive }
{}

// The worked examples compute to what is stated of them.
pub fn examples_work()
    ensures { Worked }
{}
