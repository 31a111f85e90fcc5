// Unification of two facts that are given as bytes.
ghost use Rattle.std.specs.Prelude.{◌≡◌, ℕ, ◌+◌, ◌<◌, ◌≤◌, List, ◌++◌, length, slice_index_or};
ghost use Rattle.bindings.specs.Trails.{none_bound};
ghost use Rattle.machine.specs.declared.facts.FactsFault.TheVariants.{Reading};
ghost use Rattle.machine.specs.Tries.{Ready, found, goal_term};
ghost use Rattle.machine.specs.Facts.{instance_by, told, buffer_with, common_of, outcome, buffer_after};

use crate::attempt::Head;
use crate::branch::Branch;
use crate::cells::Cells;
use crate::instance::Instance;
use crate::sink::write;
use crate::tables::Tables;
use crate::text::Text;
use bindings::TermAt;
use grammar::faults::SingleFault;
use reading::rules::read_rule;

// Why two facts are refused.
#[derive(Clone, Copy, PartialEq, Eq, Debug)]
pub enum FactsFault {
    // one of them cannot be read
    Reading(SingleFault),
    // their common instance has more bytes than the buffer
    NoRoom,
}

impl From<SingleFault> for FactsFault {
    ghost from_gives = { λ e r. r ≡ Reading e };

    fn from(fault: SingleFault) -> FactsFault {
        FactsFault::Reading(fault)
    }
}

// Tables over a goal's bytes, with so many variables, and a head's bytes after them. `Machine::open` makes its tables so too; the
// contract of a function for both would be those of `Cells::new` and `Branch::new` again.
fn load(goal: &[u8], variables: u8, head: &[u8]) -> Tables
    requires { length goal.now + length head.now ≤ 16384 }
    ensures text { result.text.bytes ≡ goal.now ++ head.now }
    ensures free { ((i : ℕ) → slice_index_or result.cells.table i None ≡ None) }
    ensures many { length result.cells.table ≡ 2048 }
    ensures used { result.cells.used ≡ variables }
    ensures newest { result.cells.newest ≡ none_bound }
{
    let mut text = Text::new();
    text.append(goal);
    text.append(head);
    Tables {
        text,
        cells: Cells::new(u16::from(variables)),
        branch: Branch::new(),
    }
}

impl Tables {
    // Tries the head on the goal, and writes the goal with what was found put in; how many bytes it has.
    fn settle(
        &mut self,
        head: Head,
        goal: TermAt,
        buffer: &mut [u8],
    ) -> Result<Option<usize>, FactsFault>
        requires ready { Ready self.old.text.bytes self.old.cells head goal }
        requires few { self.old.cells.used + head.variables ≤ 256 }
        ensures told { result ≡ told (instance_by (found self.old.text.bytes self.old.cells head goal) (goal_term self.old.text.bytes self.old.cells goal)) buffer.old }
        ensures buffer { buffer.new ≡ buffer_with (instance_by (found self.old.text.bytes self.old.cells head goal) (goal_term self.old.text.bytes self.old.cells goal)) buffer.old }
    {
        if !self.try_head(head, goal) {
            return Ok(None);
        }
        let instance = Instance {
            view: self.cells.view(&self.text),
            term: goal,
        };
        let length = write(&instance, buffer).ok_or(FactsFault::NoRoom)?;
        Ok(Some(length))
    }
}

// Unifies the heads of two single rules, the variables of the left one apart from those of the right one, writes
// their common instance and returns its length, or none where nothing makes them equal. In the instance a variable of
// the right rule has its own number; one of the left rule has that number and the count of the right one's variables
// added.
pub fn unify_facts(
    left: &[u8],
    right: &[u8],
    buffer: &mut [u8],
) -> Result<Option<usize>, FactsFault>
    ensures result { result ≡ outcome (common_of left.now right.now) buffer.old }
    ensures buffer { buffer.new ≡ buffer_after (common_of left.now right.now) buffer.old }
{
    let rule = read_rule(left)?;
    let fact = read_rule(right)?;
    let mut tables = load(fact.head, fact.variables, rule.head);
    let head = Head {
        place: fact.head.len() as u16,
        variables: rule.variables,
    };
    tables.settle(head, TermAt { place: 0, level: 0 }, buffer)
}
