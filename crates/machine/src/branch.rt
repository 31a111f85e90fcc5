// The branch of steps.
ghost use Rattle.std.specs.Prelude.{◌≡◌, ◌<◌, ◌≤◌, ◌∷◌, ◌++◌, [], length};
ghost use Rattle.std.specs.Option.{option_to_list};
ghost use Rattle.machine.specs.Branches.{taken};

use branches::Step;

const MOST_STEPS: usize = resolution::limits::MOST_STEPS as usize;

// The first `depth` steps of the table are taken, the oldest first. By a rule of the project it is a plain table without an
// invariant, so that each method says what it needs.
#[derive(Drop)]
pub(crate) struct Branch {
    steps: [Step; MOST_STEPS],
    depth: usize,
}

impl Branch {
    pub(crate) fn new() -> Branch
        ensures taken { taken result ≡ [] }
        ensures depth { result.depth ≤ 512 }
    {
        Branch {
            steps: [Step::default(); MOST_STEPS],
            depth: 0,
        }
    }

    // How many steps are taken.
    pub(crate) fn depth(&self) -> usize
        requires { self.now.depth ≤ 512 }
        ensures { result ≡ length (taken self.now) }
    {
        self.depth
    }

    // The steps taken.
    pub(crate) fn taken(&self) -> &[Step]
        requires { self.now.depth ≤ 512 }
        ensures { result.now ≡ taken self.now }
    {
        &self.steps[..self.depth]
    }

    // The rule is the newest step.
    pub(crate) fn take(&mut self, step: Step)
        requires { (self.old.depth ≤ 512) × (length (taken self.old) < 512) }
        ensures taken { taken self.new ≡ taken self.old ++ step ∷ [] }
        ensures depth { self.new.depth ≤ 512 }
    {
        let newest = &mut self.steps[self.depth];
        *newest = step;
        self.depth += 1;
    }

    // Takes off the newest step, where there is one.
    pub(crate) fn leave(&mut self) -> Option<Step>
        requires { self.old.depth ≤ 512 }
        ensures taken { taken self.old ≡ taken self.new ++ option_to_list result }
        ensures depth { self.new.depth ≤ 512 }
        ensures bare { result ≡ None → (taken self.old ≡ []) × (self.new ≡ self.old) }
    {
        let newest = self.depth.checked_sub(1)?;
        self.depth = newest;
        Some(self.steps[newest])
    }

    // No step is left.
    pub(crate) fn clear(&mut self)
        ensures taken { taken self.new ≡ [] }
        ensures depth { self.new.depth ≤ 512 }
    {
        self.depth = 0;
    }
}
