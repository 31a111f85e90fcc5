// The parts of a slip that are no terms.
ghost use Rattle.std.specs.Prelude.{◌≡◌, drop};
ghost use Rattle.comparing.specs.Parts.{step_begun, closed, opened};

use crate::limits::STEP_SIZE;
use comparing::StepStart;
use grammar::bytes::{ANSWER, END, STEP};
use grammar::faults::CommandFault;
use slips::faults::SlipFault;

// What stands from `place` on.
fn after(slip: &[u8], place: usize) -> &[u8]
    ensures { result.now ≡ drop place slip.now }
{
    slip.get(place..).unwrap_or(&[])
}

// The slip opens for a query with so many variables.
pub(crate) fn open(slip: &[u8], variables: u8) -> Result<(), SlipFault>
    ensures { result ≡ opened variables slip.now }
{
    match slip {
        [ANSWER, count, ..] if *count == variables => Ok(()),
        _ => Err(SlipFault::Opening),
    }
}

// A step begins at `place`, with these operands: the number of its rule, and how many terms it has.
pub(crate) fn begin(slip: &[u8], place: usize) -> Result<StepStart, SlipFault>
    ensures { result ≡ step_begun place (drop place slip.now) }
{
    let [STEP, operands @ ..] = after(slip, place) else {
        return Err(SlipFault::NoStep { place });
    };
    let [high, low, count, ..] = operands else {
        return Err(SlipFault::from(CommandFault::Operands { place }));
    };
    Ok(StepStart {
        rule: u16::from_be_bytes([*high, *low]),
        count: *count,
        terms: place + STEP_SIZE,
    })
}

// The slip ends at `place`.
pub(crate) fn close(slip: &[u8], place: usize) -> Result<(), SlipFault>
    ensures { result ≡ closed place (drop place slip.now) }
{
    match after(slip, place) {
        [END] => Ok(()),
        _ => Err(SlipFault::NoEnd { place }),
    }
}
