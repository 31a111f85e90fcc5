// A try of a rule on a goal.
ghost use Rattle.std.specs.Prelude.{◌≡◌, ℕ, true, false, List};
ghost use Rattle.unification.specs.Unification.{unify as unifier};
ghost use Rattle.bindings.specs.Cells.{Cell};
ghost use Rattle.bindings.specs.Trails.{Since, Sound, TermIn, meaning_at};
ghost use Rattle.bindings.specs.Endings.{Ends};
ghost use Rattle.machine.specs.Tries.{Ready, Tried};

use crate::cells::Cells;
use crate::guard::Guard;
use crate::text::Text;
use bindings::{Binding, TermAt};

// The head of a rule in the text, and how many variables the rule declares.
#[derive(Clone, Copy)]
pub(crate) struct Head {
    pub(crate) place: u16,
    pub(crate) variables: u8,
}

// Makes two terms equal, or leaves the cells as they were. Whether they can be made equal is the answer to a question, and no
// success of the call; so it is in every function of a try.
fn join(
    text: &Text,
    cells: &mut [Option<Binding>],
    used: u16,
    newest: &mut u16,
    left: TermAt,
    right: TermAt,
) -> bool
    requires sound { Sound text.now.bytes used cells.old newest.old }
    requires left { TermIn text.now.bytes used left }
    requires right { TermIn text.now.bytes used right }
    ensures cells { result ≡ false → cells.new ≡ cells.old }
    ensures newest { result ≡ false → newest.new ≡ newest.old }
    ensures since { result ≡ true → (was : List Cell) (m : ℕ) → Since was m cells.old newest.old → Since was m cells.new newest.new }
    ensures ends { Ends text.now.bytes used cells.old newest.old cells.new newest.new (unifier (meaning_at text.now.bytes cells.old newest.old left) (meaning_at text.now.bytes cells.old newest.old right)) result }
{
    let mut guard = Guard {
        cells,
        used,
        newest: *newest,
        mark: *newest,
        keep: false,
    };
    let joined = guard.unify(text, left, right);
    if joined {
        guard.keep();
        *newest = guard.newest;
    }
    joined
}

// Takes fresh cells for the rule's variables and unifies its head with the goal.
pub(crate) fn attempt(text: &Text, cells: &mut Cells, head: Head, goal: TermAt) -> bool
    requires { Ready text.now.bytes cells.old head goal }
    ensures { Tried text.now.bytes cells.old head goal cells.new result }
{
    let used = cells.used + u16::from(head.variables);
    let fresh = TermAt {
        place: head.place,
        level: cells.used,
    };
    if !join(text, &mut cells.table, used, &mut cells.newest, fresh, goal) {
        return false;
    }
    cells.used = used;
    true
}
