// The checker of slips: it searches nothing, and needs no memory but its own fixed tables.
#![tactic(auto)]

mod cursors;
mod limits;
mod parts;
mod places;
mod progress;
mod texts;
pub mod verdicts;

ghost use Rattle.std.specs.Prelude.{◌≡◌};
ghost use Rattle.slips.specs.Checker.{check as check_definition};
ghost use Rattle.slips.specs.Opening.{rules_in};
ghost use Rattle.comparing.specs.Runs.{FollowsIfPassed};

use progress::Progress;
use reading::rules::read_query;
use slips::faults::CheckFault;
use stores::stores::Store;
use texts::Texts;

// Checks a slip for a query against the rules of a store. What passes claims only what follows from these rules.
pub fn check<S: Store>(store: &S, query: &[u8], slip: &[u8]) -> Result<(), CheckFault>
    ensures value { result ≡ check_definition (rules_in (S.Store.rules store.now)) query.now slip.now }
    ensures follows { FollowsIfPassed (S.Store.rules store.now) query.now slip.now result }
{
    let asked = read_query(query)?;
    let texts = Texts {
        store,
        body: asked.body,
        slip,
    };
    let mut progress = Progress::new();
    progress
        .start(slip, asked.variables)
        .map_err(|fault| CheckFault::InSlip { fault, steps: 0 })?;
    progress.run(&texts).map_err(|fault| CheckFault::InSlip {
        fault,
        steps: progress.steps,
    })
}
