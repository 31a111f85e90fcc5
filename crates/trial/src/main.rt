// Calls next on a search of the book in `book.bin` for the query in `query.bin`, with the allowances in `allowances.txt`, and
// prints what came of each call.
#![tactic(auto)]

use engine::search::Search;
use resolution::{Outcome, Tally};
use std::alloc::{AllocError, Global};
use std::fs;
use stores::rulebooks::{Image, RuleBook};

// What a call of next returned, and the tally after it.
fn next_line(heap: Global, search: &mut Search, allowance: u32) -> Result<String, AllocError> {
    let Outcome { word, tries: made } = match search.next(allowance) {
        Ok(outcome) => outcome,
        Err(refusal) => return format!(in heap; "refused,{refusal}"),
    };
    let Tally {
        tries,
        answers,
        steps,
        cells,
    } = search.tally();
    format!(in heap; "{word},{made},{tries},{answers},{steps},{cells}")
}

// What comes of a line: an allowance, or `rewind`.
fn line(heap: Global, search: &mut Search, text: &str) -> Result<String, AllocError> {
    if text == "rewind" {
        search.rewind();
        return String::from_str(heap, "rewind");
    }
    match text.parse() {
        Ok(allowance) => next_line(heap, search, allowance),
        Err(_) => String::from_str(heap, "unknown"),
    }
}

fn trial(rt: &HostRuntime, book: &RuleBook, query: &[u8], allowances: &str) -> anyhow::Result<()> {
    let mut search = match Search::open(book, query) {
        Ok(search) => search,
        Err(fault) => return Ok(println!(rt; "refused,{fault}")?),
    };
    for text in allowances.lines() {
        rt.println(line(rt.alloc(), &mut search, text)?)?;
    }
    Ok(())
}

// A file that cannot be read counts as empty.
fn main(rt: HostRuntime) -> anyhow::Result<()> {
    let heap = rt.alloc();
    let bytes = fs::read(&rt, "book.bin").unwrap_or_else(|_| Vec::new(heap));
    let query = fs::read(&rt, "query.bin").unwrap_or_else(|_| Vec::new(heap));
    let allowances = fs::read_to_string(&rt, "allowances.txt").unwrap_or_else(|_| String::new(
        heap,
    ));
    let image = Image::new(bytes.as_slice());
    match RuleBook::open(&image) {
        Ok(book) => trial(&rt, &book, query.as_slice(), allowances.as_str()),
        Err(fault) => Ok(println!(rt; "refused,{fault}")?),
    }
}
