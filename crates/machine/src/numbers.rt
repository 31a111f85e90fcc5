// The rule numbers of where a search stands.
ghost use Rattle.std.specs.Prelude.{◌≡◌};
ghost use Rattle.slips.specs.Slips.{slip_of, numbers};
ghost use Rattle.machine.specs.Machines.{rules, query as query_of, place};

use crate::machine::Machine;
use arrayvec::ArrayVec;
use resolution::limits::MOST_STEPS;

const STEPS: usize = MOST_STEPS as usize;

// As many rule numbers as a branch has steps.
pub type Numbers = ArrayVec<u16, STEPS>;

impl Machine {
    // The rule numbers of the steps, oldest first.
    pub fn numbers(&self) -> Numbers
        ensures { result.items ≡ numbers (slip_of (rules self.now) (query_of self.now) (place self.now)).steps }
    {
        let mut numbers = ArrayVec::new();
        for step in self.tables.branch.taken() {
            numbers.push(step.rule);
        }
        numbers
    }
}
