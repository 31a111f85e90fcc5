// Outcomes as a line of text, in the form in which they are stored.
use hexadecimal::encode;
use outcomes::{Fault, Outcome, Position};
use std::alloc::{AllocError, Global};

fn outcome_text(heap: Global, outcome: &Outcome) -> Result<String, AllocError> {
    match outcome {
        Outcome::Refused(Fault { number, position }) => match position {
            Some(Position { place, layer }) => {
                format!(in heap; "refused,{number},{place},{layer}")
            }
            None => format!(in heap; "refused,{number},-,-"),
        },
        Outcome::Answer { tries, slip } => {
            let digits = encode(heap, slip.bytes())?;
            format!(in heap; "answer,{tries},{digits}")
        }
        Outcome::Said { word, tries } => format!(in heap; "{word},{tries}"),
    }
}

pub(crate) fn outcomes_line(
    heap: Global,
    name: &str,
    outcomes: &[Outcome],
) -> Result<String, AllocError> {
    let mut line = String::from_str(heap, name)?;
    for outcome in outcomes {
        line.push(' ')?;
        line.push_str(outcome_text(heap, outcome)?.as_str())?;
    }
    Ok(line)
}
