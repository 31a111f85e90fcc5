// A listing as text.
ghost use Rattle.std.specs.Prelude.{Some};
ghost use Rattle.listing.specs.Printed.{table_text};

use crate::Listing;
use std::fmt;

// A heading, and the rows for a book and a query, each on a line.
#[derive(Clone, Copy)]
pub struct Table<'a> {
    pub book: &'a [u8],
    pub query: &'a [u8],
}

impl fmt::Display for Table<'_> {
    ghost output = { λ t. Some (table_text t.book.now t.query.now) };

    fn fmt<W: fmt::Write>(&self, f: &mut fmt::Formatter<W>) -> fmt::Result {
        f.write_str("word,tries,steps\n")?;
        for row in Listing::open(self.book, self.query) {
            writeln!(f, "{row}")?;
        }
        Ok(())
    }
}
