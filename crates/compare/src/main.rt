// Runs the engine on the cases in `cases.txt`, which have with them what must come of each, and prints how many of each group
// agree. A case that does not agree is printed, with what is stored and what came of it.
#![tactic(auto)]

mod cases;
mod groups;
mod lines;
mod runs;

use anyhow::Context;
use cases::Case;
use groups::Group;
use lines::outcomes_line;
use outcomes::first_difference;
use runs::outcomes_of;
use std::fs;

// Whether the engine finds the outcomes that are stored for the case.
fn agrees(rt: &HostRuntime, line: &str) -> anyhow::Result<bool> {
    let heap = rt.alloc();
    let case = Case::parse(heap, line)?;
    let found = outcomes_of(heap, &case)?;
    let Some(place) = first_difference(found.as_slice(), case.stored.as_slice()) else {
        return Ok(true);
    };
    println!(rt; "differs at outcome {place}: {line}")?;
    rt.println(outcomes_line(heap, "stored", case.stored.as_slice())?)?;
    rt.println(outcomes_line(heap, "found", found.as_slice())?)?;
    Ok(false)
}

// A line for each group, whose cases stand together, and one for all cases.
fn compare(rt: &HostRuntime, text: &str) -> anyhow::Result<()> {
    let heap = rt.alloc();
    println!(rt; "group,agree,cases")?;
    let mut total = Group::new(heap, "total")?;
    let mut group = Group::new(heap, "")?;
    for line in text.lines().filter(|line| !line.starts_with('#')) {
        let (name, case) = line.split_once(' ').context("a line without a case")?;
        if !group.is_named(name) {
            group.print(rt)?;
            group = Group::new(heap, name)?;
        }
        let agrees = agrees(rt, case)?;
        group.count(agrees);
        total.count(agrees);
    }
    group.print(rt)?;
    total.print(rt)
}

fn main(rt: HostRuntime) -> anyhow::Result<()> {
    let text = fs::read_to_string(&rt, "cases.txt")?;
    compare(&rt, text.as_str())
}
