// What comes of a slip, as programs print it.
ghost use Rattle.std.specs.Prelude.{Some};
ghost use Rattle.checker.specs.Verdicts.{verdict_text};

use notation::OrDash;
use slips::faults::CheckFault;
use std::fmt;

// `passed`, or `refused` with the fault's number, place and layer and the steps completed before it.
#[derive(Clone, Copy)]
pub struct Verdict(pub Result<(), CheckFault>);

impl fmt::Display for Verdict {
    ghost output = { λ v. Some (verdict_text v.0) };

    fn fmt<W: fmt::Write>(&self, f: &mut fmt::Formatter<W>) -> fmt::Result {
        match self.0 {
            Ok(()) => f.write_str("passed"),
            Err(fault) => write!(f, "refused,{fault},{}", OrDash(fault.steps())),
        }
    }
}
