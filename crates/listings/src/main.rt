// Lists what comes of each book and query that standard input has in hexadecimal, one of each on a line, as `locate` does.
#![tactic(auto)]

use hexadecimal::decode;
use listing::tables::Table;
use std::alloc::{AllocError, Global};

#[derive(Drop)]
struct Case {
    book: Vec<u8>,
    query: Vec<u8>,
}

impl Case {
    // The case of a line; none where it is no case.
    fn parse(heap: Global, line: &str) -> Result<Option<Case>, AllocError> {
        let Some((book, query)) = line.split_once(' ') else {
            return Ok(None);
        };
        let Some(book) = decode(heap, book.as_bytes())? else {
            return Ok(None);
        };
        let Some(query) = decode(heap, query.as_bytes())? else {
            return Ok(None);
        };
        Ok(Some(Case { book, query }))
    }

    fn table(&self) -> Table<'_> {
        Table {
            book: self.book.as_slice(),
            query: self.query.as_slice(),
        }
    }
}

fn main(rt: HostRuntime) -> anyhow::Result<()> {
    let heap = rt.alloc();
    for line in rt.lines(heap) {
        match Case::parse(heap, line?.as_str())? {
            Some(case) => rt.print(case.table())?,
            None => println!(rt; "unknown")?,
        }
    }
    Ok(())
}
