// Reading the terms of the slip, and keeping where each of them begins.
ghost use Rattle.std.specs.Prelude.{◌≡◌, ℕ, ◌+◌, ◌≤◌, List, length, Ok, OnOk};
ghost use Rattle.terms.specs.Terms.{Term};
ghost use Rattle.slips.specs.Checker.{terms_at};
ghost use Rattle.comparing.specs.Cursors.{Listed};
ghost use Rattle.comparing.specs.Places.{where_to, Added};

use crate::cursors::due_after;
use crate::limits::TERMS;
use arrayvec::ArrayVec;
use grammar::faults::RuleFault;
use reading::commands::Reader;
use terms::Form;

// The place behind the term at `place`. `Reader::terms` goes over terms too, but over 255 variables at most: here every
// number of two bytes may be an unknown's.
fn skip_term(slip: &[u8], place: usize) -> Result<usize, RuleFault>
    ensures { result ≡ where_to (terms_at 1 place slip.now) }
{
    let mut reader = Reader::from_place(slip, place);
    let mut due: usize = 1;
    while due > 0 {
        let place = reader.place();
        let next = reader.command(Form::Slips)?;
        let command = next.ok_or(RuleFault::TermMissing { place })?;
        due = due_after(due, command);
    }
    Ok(reader.place())
}

// Reads so many terms from `place` on. Where they begin goes into the table; the place behind them is returned.
pub(crate) fn read_terms(
    slip: &[u8],
    place: usize,
    count: u8,
    table: &mut ArrayVec<usize, TERMS>,
) -> Result<usize, RuleFault>
    requires { length table.old.items + count ≤ TERMS }
    ensures value { result ≡ where_to (terms_at count place slip.now) }
    ensures listed { (ts : List Term) (q : ℕ) → terms_at count place slip.now ≡ Ok (ts, q) → Listed slip.now table.new.items (length table.old.items) ts }
    ensures added { OnOk result (Added table.old.items table.new.items count) }
{
    let mut next = place;
    for _ in 0..count {
        table.push(next);
        next = skip_term(slip, next)?;
    }
    Ok(next)
}
