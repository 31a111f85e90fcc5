// Searches the stores that standard input has, a line each, and prints what came of the calls. A line names the kind of store,
// its rules, the query and the calls; docs/trial.md has the notation.
#![tactic(auto)]

mod failures;
mod parts;

use boards::boards::Board;
use engine::search::Search;
use failures::Failure;
use parts::{bytes, part_bytes, repeated};
use resolution::{Outcome, Tally};
use std::alloc::Global;
use stores::lent::Lent;
use stores::piles::Pile;
use stores::rulebooks::{Image, RuleBook};
use stores::stores::Store;

// a rule that every goal unifies with: its head is variable 0
const ANYTHING: [u8; 7] = [0x10, 1, 0, 0, 2, 0x02, 0];

fn over_book(heap: Global, rules: &str, query: &[u8]) -> Result<Search, Failure> {
    let bytes = bytes(heap, rules)?;
    let image = Image::new(bytes.as_slice());
    let book = RuleBook::open(&image)?;
    Ok(Search::open(&book, query)?)
}

// Once the search is opened, the board is cleared and gets another rule, which the search must not see.
fn over_board(heap: Global, rules: &str, query: &[u8]) -> Result<Search, Failure> {
    let mut board = Board::new();
    for part in rules.split('+') {
        let (times, digits) = repeated(part)?;
        let rule = part_bytes(heap, digits)?;
        for _ in 0..times {
            board.add(rule.as_slice()).map_err(|_| Failure::Unknown)?;
        }
    }
    let search = Search::open(&board, query)?;
    for number in (0..board.count()).rev() {
        board.remove(number).map_err(|_| Failure::Unknown)?;
    }
    board.add(&ANYTHING).map_err(|_| Failure::Unknown)?;
    Ok(search)
}

// A book over a book, with a slash between them.
fn over_pile(heap: Global, rules: &str, query: &[u8]) -> Result<Search, Failure> {
    let (upper, lower) = rules.split_once('/').ok_or(Failure::Unknown)?;
    let upper = bytes(heap, upper)?;
    let lower = bytes(heap, lower)?;
    let (upper, lower) = (Image::new(upper.as_slice()), Image::new(lower.as_slice()));
    let (upper, lower) = (RuleBook::open(&upper)?, RuleBook::open(&lower)?);
    Ok(Search::open(&Pile::new(Lent::new(&upper), Lent::new(&lower)), query)?)
}

// What comes of a call: `rewind`, or the allowance of a call of next.
fn call(heap: Global, search: &mut Search, text: &str) -> Result<String, Failure> {
    if text == "rewind" {
        search.rewind();
        return Ok(String::from_str(heap, "rewind")?);
    }
    let allowance = text.parse().map_err(|_| Failure::Unknown)?;
    match search.next(allowance) {
        Ok(Outcome { word, tries }) => Ok(format!(in heap; "{word},{tries}")?),
        Err(refusal) => Ok(format!(in heap; "refused,{refusal}")?),
    }
}

// What comes of each call, and the tally after the last.
fn outcomes(heap: Global, search: &mut Search, calls: &str) -> Result<String, Failure> {
    let mut line = String::new(heap);
    for part in calls.split('+') {
        let (times, text) = repeated(part)?;
        for _ in 0..times {
            line.push_str(call(heap, search, text)?.as_str())?;
            line.push(' ')?;
        }
    }
    let Tally {
        tries,
        answers,
        steps,
        cells,
    } = search.tally();
    line.push_str(format!(in heap; "tally,{tries},{answers},{steps},{cells}")?.as_str())?;
    Ok(line)
}

// A kind of store is named by a word of the line, and these kinds are closed.
fn case_line(heap: Global, line: &str) -> Result<String, Failure> {
    let (kind, rest) = line.split_once(' ').ok_or(Failure::Unknown)?;
    let (rules, rest) = rest.split_once(' ').ok_or(Failure::Unknown)?;
    let (query, calls) = rest.split_once(' ').ok_or(Failure::Unknown)?;
    let query = bytes(heap, query)?;
    let mut search = match kind {
        "book" => over_book(heap, rules, query.as_slice())?,
        "board" => over_board(heap, rules, query.as_slice())?,
        "pile" => over_pile(heap, rules, query.as_slice())?,
        _ => return Err(Failure::Unknown),
    };
    outcomes(heap, &mut search, calls)
}

fn main(rt: HostRuntime) -> anyhow::Result<()> {
    let heap = rt.alloc();
    for line in rt.lines(heap) {
        match case_line(heap, line?.as_str()) {
            Ok(text) => rt.println(text)?,
            Err(Failure::Memory(e)) => return Err(e.into()),
            Err(failure) => rt.println(failure)?,
        }
    }
    Ok(())
}
