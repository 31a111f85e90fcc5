// What comes of a run.
use slips::faults::{CheckFault, OpeningFault};

#[derive(Clone, Copy)]
pub struct Report {
    // whether the search was opened
    pub opening: Result<(), OpeningFault>,
    // whether the slip passed
    pub check: Result<(), CheckFault>,
}
