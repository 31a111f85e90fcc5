// Carries out the calls in `calls.txt` on a search of the book in `book.bin` for the query in `query.bin`, and prints
// what came of each line.
#![tactic(auto)]

mod calls;
mod lines;

use calls::{parse, slot};
use engine::runs::run;
use lines::reply_line;
use std::fs;
use stores::rulebooks::{Image, RuleBook};

// The bytes of a file; one that cannot be read counts as empty. Programs that read files have this line each: no contract says
// what a file holds, and a library for it would be longer.
fn file(rt: &HostRuntime, name: &str) -> Vec<u8> {
    fs::read(rt, name).unwrap_or_else(|_| Vec::new(rt.alloc()))
}

// A line for each line of the text. No slip is brought along to be checked.
fn replay(rt: &HostRuntime, book: &RuleBook, query: &[u8], text: &str) -> anyhow::Result<()> {
    let heap = rt.alloc();
    let mut slots = Vec::new(heap);
    for line in text.lines() {
        if let Some(call) = parse(line) {
            slots.push(slot(heap, call)?)?;
        }
    }
    let report = run(book, query, slots.as_mut_slice(), book, &[]);
    if let Err(fault) = report.opening {
        return Ok(println!(rt; "refused,{fault}")?);
    }
    let mut carried_out = slots.iter();
    for line in text.lines() {
        let printed = match parse(line) {
            Some(_) => match carried_out.next() {
                Some(slot) => reply_line(heap, slot)?,
                None => break,
            },
            None => String::from_str(heap, "unknown")?,
        };
        rt.println(printed)?;
    }
    Ok(())
}

fn main(rt: HostRuntime) -> anyhow::Result<()> {
    let heap = rt.alloc();
    let bytes = file(&rt, "book.bin");
    let query = file(&rt, "query.bin");
    let text = fs::read_to_string(&rt, "calls.txt").unwrap_or_else(|_| String::new(heap));
    let image = Image::new(bytes.as_slice());
    match RuleBook::open(&image) {
        Ok(book) => replay(&rt, &book, query.as_slice(), text.as_str()),
        Err(fault) => Ok(println!(rt; "refused,{fault}")?),
    }
}
