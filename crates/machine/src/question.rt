// The query in the text.
ghost use Rattle.std.specs.Prelude.{◌≡◌, None};

use branches::Goals;

// Where its goals begin, how many variables it declares, and how many goals it has.
#[derive(Clone, Copy)]
pub(crate) struct Question {
    pub(crate) place: u16,
    pub(crate) variables: u8,
    pub(crate) goals: u8,
}

impl Question {
    // The query's goals, with the first cells.
    pub(crate) fn goals(&self) -> Goals
        ensures { result ≡ record { place = self.now.place; level = 0; left = self.now.goals; above = None } }
    {
        Goals {
            place: self.place,
            level: 0,
            left: self.goals,
            above: None,
        }
    }
}
