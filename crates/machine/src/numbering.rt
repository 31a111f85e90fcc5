// How the variables of written terms are named.
ghost use Rattle.std.specs.Prelude.{◌≡◌, ℕ, ◌<◌, ◌≤◌, List, [], map};
ghost use Rattle.terms.specs.Terms.{var};
ghost use Rattle.slips.specs.Slips.{position, appeared};
ghost use Rattle.slips.specs.Numberings.{own, by_first, Numbers};
ghost use Rattle.machine.specs.Numberings.{Named, number_of};

use crate::cells::CELLS;

// The unknowns that were met, numbered from 0 in the order in which they were. The table goes by cell, and `met` is no length
// of it.
#[derive(Drop)]
pub(crate) struct Unknowns {
    // one more than the number of each cell that was met, and 0 for the others: the table is cleared at each writing, and with
    // Options it is twice as long
    numbers: [u16; CELLS],
    // how many were met
    met: u16,
}

impl Unknowns {
    // The number of a cell, the next one up where it is met for the first time.
    pub(crate) fn number(&mut self, cell: u16) -> u16
        requires { (used : ℕ) × (xs : List ℕ) × (cell < used) × Numbers (map number_of self.old.numbers) self.old.met used xs }
        ensures number { (used : ℕ) (xs : List ℕ) → cell < used → Numbers (map number_of self.old.numbers) self.old.met used xs → result ≡ position cell (appeared xs (var cell)) }
        ensures numbers { (used : ℕ) (xs : List ℕ) → cell < used → Numbers (map number_of self.old.numbers) self.old.met used xs → Numbers (map number_of self.new.numbers) self.new.met used (appeared xs (var cell)) }
    {
        if let Some(known) = self.numbers[cell as usize].checked_sub(1) {
            return known;
        }
        let number = self.met;
        self.met += 1;
        self.numbers[cell as usize] = self.met;
        number
    }
}

// How variables are named.
#[derive(Drop)]
pub(crate) enum Numbering {
    // in the form of rules, by their own cells
    ByCell,
    // in the form of slips, as unknowns
    ByFirst(Unknowns),
}

impl Numbering {
    pub(crate) fn by_cell() -> Numbering
        ensures { (used : ℕ) → used ≤ 256 → Named result used own }
    {
        Numbering::ByCell
    }

    // No unknown is met yet.
    pub(crate) fn by_first() -> Numbering
        ensures { (used : ℕ) → used ≤ 2048 → Named result used (by_first []) }
    {
        Numbering::ByFirst(Unknowns {
            numbers: [0; CELLS],
            met: 0,
        })
    }
}
