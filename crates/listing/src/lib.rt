// The listing of a search over a book: a row for each call of next, with the rule numbers of each answer.
#![tactic(auto)]

pub mod faults;
pub mod laws;
pub mod limits;
pub mod rows;
pub mod tables;

ghost use Rattle.std.specs.Prelude.{◌≡◌, IfOk};
ghost use Rattle.std.specs.Iterator.{YieldsFirst, item_count};
ghost use Rattle.reading.specs.Views.{seen};
ghost use Rattle.resolution.specs.Search.{standing, opened, next as definition_next};
ghost use Rattle.slips.specs.Slips.{slip_of};
ghost use Rattle.engine.specs.Models.{rules_of, query_of, model, opened_with};
ghost use Rattle.listing.specs.Limits.{allowance};
ghost use Rattle.listing.specs.Listings.{opening, numbers_in, told_by, listing};
ghost use Rattle.listing.specs.Left.{rows_left};

use crate::faults::Fault;
use crate::limits::{ALLOWANCE, MOST_CALLS, SLIP_ROOM};
use crate::rows::Row;
use engine::search::Search;
use machine::numbers::Numbers;
use resolution::Word;
use stores::rulebooks::{Image, RuleBook};

// The rows of a search, one at a time: each is a call of next, which is made when the row is asked for.
#[derive(Drop)]
pub struct Listing {
    search: Result<Search, Fault>,
    // how many calls may still be made
    calls: usize,
}

// Opens a search over the rules of a book.
fn open(book: &[u8], query: &[u8]) -> Result<Search, Fault>
    ensures opened { seen opened_with result ≡ opening book.now query.now }
    ensures start { IfOk result (λ s. model s ≡ opened (query_of s)) }
{
    let image = Image::new(book);
    let book = RuleBook::open(&image)?;
    Ok(Search::open(&book, query)?)
}

// The rule numbers of the answer that stands, where its slip has room.
fn numbers(search: &Search) -> Result<Numbers, Fault>
    requires { (model search.now).condition ≡ standing }
    ensures { seen (λ ns. ns.items) result ≡ numbers_in (slip_of (rules_of search.now) (query_of search.now) (model search.now).place) }
{
    let answer = search.hold()?;
    let mut slip = [0; SLIP_ROOM];
    answer.slip(&mut slip)?;
    Ok(answer.numbers())
}

// Makes a call of next, and says what came of it.
fn call(search: &mut Search) -> Result<Row, Fault>
    ensures told { result ≡ told_by (rules_of search.old) (query_of search.old) (definition_next (rules_of search.old) allowance (model search.old)) }
    ensures search { model search.new ≡ (definition_next (rules_of search.old) allowance (model search.old)).search }
    ensures rules { rules_of search.new ≡ rules_of search.old }
    ensures query { query_of search.new ≡ query_of search.old }
{
    let outcome = search.next(ALLOWANCE)?;
    let numbers = match outcome.word {
        Word::Answer => numbers(search)?,
        Word::Spent | Word::Stopped(_) | Word::NoMore => Numbers::new(),
    };
    Ok(Row::Told { outcome, numbers })
}

impl Listing {
    // Reads the book and the query, and opens a search.
    pub fn open(book: &[u8], query: &[u8]) -> Listing
        ensures { rows_left result ≡ listing book.now query.now }
    {
        Listing {
            search: open(book, query),
            calls: MOST_CALLS,
        }
    }
}

impl Iterator for Listing {
    type Item = Row;

    ghost next_gives = { YieldsFirst rows_left };

    ghost remaining = { item_count rows_left };

    // A refusal, and a word after which nothing more comes, ends the listing.
    fn next(&mut self) -> Option<Row> {
        self.calls = self.calls.checked_sub(1)?;
        let row = match &mut self.search {
            Ok(search) => match call(search) {
                Ok(row) => row,
                Err(fault) => Row::Refused(fault),
            },
            Err(fault) => Row::Refused(*fault),
        };
        if row.is_last() {
            self.calls = 0;
        }
        Some(row)
    }
}
