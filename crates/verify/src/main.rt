// Checks the slip in `slip.bin` for the query in `query.bin` by the book in `book.bin`, and prints whether it passes.
#![tactic(auto)]

use checker::check;
use checker::verdicts::Verdict;
use std::alloc::{AllocError, Global};
use std::fs;
use stores::rulebooks::{Image, RuleBook};

// What comes of the slip. A book that is refused has no steps.
fn verdict(heap: Global, book: &[u8], query: &[u8], slip: &[u8]) -> Result<String, AllocError> {
    let image = Image::new(book);
    let store = match RuleBook::open(&image) {
        Ok(store) => store,
        Err(fault) => return format!(in heap; "refused,{fault},-"),
    };
    Verdict(check(&store, query, slip)).to_string(heap)
}

// The bytes of a file; one that cannot be read counts as empty. Programs that read files have this line each: no contract says
// what a file holds, and a library for it would be longer.
fn file(rt: &HostRuntime, name: &str) -> Vec<u8> {
    fs::read(rt, name).unwrap_or_else(|_| Vec::new(rt.alloc()))
}

fn main(rt: HostRuntime) -> anyhow::Result<()> {
    let book = file(&rt, "book.bin");
    let query = file(&rt, "query.bin");
    let slip = file(&rt, "slip.bin");
    rt.println(verdict(
        rt.alloc(),
        book.as_slice(),
        query.as_slice(),
        slip.as_slice(),
    )?)?;
    Ok(())
}
