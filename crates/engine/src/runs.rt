// Carrying out a list of calls, and the promise over all of them.
ghost use Rattle.std.specs.Prelude.{◌≡◌, List, map};
ghost use Rattle.std.proofs.Math.Option.{some};
ghost use Rattle.slips.specs.Runs.{reply, after};
ghost use Rattle.engine.specs.Models.{rules_of, query_of, model};
ghost use Rattle.slips.specs.Opening.{opening};
ghost use Rattle.engine.specs.Slots.{asked, returned, keeps};
ghost use Rattle.engine.specs.Promise.{status, Carried, Promise};

use crate::report::Report;
use crate::search::Search;
use crate::slots::{Reply, Request, Slot};
use checker::check;
use slips::faults::OpeningFault;
use stores::stores::Store;

impl Search {
    // Carries out the call of a slot. The calls are a closed set, which a caller names; that rules and query stay is said here too.
    pub fn carry(&mut self, slot: &mut Slot)
        ensures returned { returned slot.new ≡ some (reply (rules_of self.old) (query_of self.old) (asked slot.old) (model self.old)) }
        ensures search { model self.new ≡ after (rules_of self.old) (query_of self.old) (asked slot.old) (model self.old) }
        ensures keeps { keeps slot.new ≡ keeps slot.old }
        ensures rules { rules_of self.new ≡ rules_of self.old }
        ensures query { query_of self.new ≡ query_of self.old }
    {
        let buffer = slot.buffer.as_mut_slice();
        let reply = match slot.request {
            Request::Next(allowance) => Reply::Next(self.next(allowance)),
            Request::Rewind => {
                self.rewind();
                Reply::Rewound
            }
            Request::Tally => Reply::Tallied(self.tally()),
            Request::Hold => Reply::Held(self.held()),
            Request::Answer => Reply::Wrote(self.write_answer(buffer)),
            Request::Slip => Reply::Wrote(self.write_slip(buffer)),
        };
        slot.reply = Some(reply);
    }
}

// Opens a search over a store and carries out the calls, one after the other.
fn play<S: Store>(store: &S, query: &[u8], slots: &mut [Slot]) -> Result<(), OpeningFault>
    ensures opening { result ≡ status (opening (S.Store.rules store.now) query.now) }
    ensures calls { Carried (opening (S.Store.rules store.now) query.now) slots.old slots.new }
    ensures keeps { map keeps slots.new ≡ map keeps slots.old }
{
    let mut search = Search::open(store, query)?;
    for slot in slots.iter_mut() {
        search.carry(slot);
    }
    Ok(())
}

// Opens a search over a store, carries out the calls in the caller's slots, and checks a slip on another store. The
// promise says what each of them returns, and what holds of every such run.
pub fn run<S: Store, T: Store>(
    store: &S,
    query: &[u8],
    slots: &mut [Slot],
    other: &T,
    slip: &[u8],
) -> Report
    ensures { Promise (S.Store.rules store.now) query.now slots.old slots.new (T.Store.rules other.now) slip.now result }
{
    let opening = play(store, query, slots);
    let check = check(other, query, slip);
    Report { opening, check }
}
