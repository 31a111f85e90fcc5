// Checks the slips that standard input has, a line each, and prints what came of it. A line names the kind of store, its
// rules, the query and the slip, in hexadecimal; commas part rules, and in a pile a slash parts the upper store's.
#![tactic(auto)]

use boards::boards::Board;
use checker::check;
use checker::verdicts::Verdict;
use hexadecimal::decode;
use std::alloc::{AllocError, Global};
use stores::lent::Lent;
use stores::piles::Pile;
use stores::rulebooks::{Image, RuleBook};
use stores::stores::Store;

// Why a line has no verdict.
#[derive(Drop)]
enum Failure {
    // it is no case
    Unknown,
    Memory(AllocError),
}

impl From<AllocError> for Failure {
    fn from(e: AllocError) -> Failure {
        Failure::Memory(e)
    }
}

// The bytes that the digits spell.
fn bytes(heap: Global, digits: &str) -> Result<Vec<u8>, Failure> {
    decode(heap, digits.as_bytes())?.ok_or(Failure::Unknown)
}

// The bytes of the rules as a book.
fn book_of(heap: Global, rules: &str) -> Result<Vec<u8>, Failure> {
    let mut digits = String::new(heap);
    for rule in rules.split(',') {
        digits.push_str(rule)?;
    }
    bytes(heap, digits.as_str())
}

// A board with these rules.
fn board_of(heap: Global, rules: &str) -> Result<Board, Failure> {
    let mut board = Board::new();
    for digits in rules.split(',') {
        let rule = bytes(heap, digits)?;
        board.add(rule.as_slice()).map_err(|_| Failure::Unknown)?;
    }
    Ok(board)
}

// A slip and the query that it is for.
#[derive(Drop)]
struct Case {
    query: Vec<u8>,
    slip: Vec<u8>,
}

impl Case {
    fn parse(heap: Global, text: &str) -> Result<Case, Failure> {
        let (query, slip) = text.split_once(' ').ok_or(Failure::Unknown)?;
        let query = bytes(heap, query)?;
        let slip = bytes(heap, slip)?;
        Ok(Case { query, slip })
    }

    // What comes of it by one store.
    fn verdict<S: Store>(&self, heap: Global, store: &S) -> Result<String, Failure> {
        let checked = check(store, self.query.as_slice(), self.slip.as_slice());
        Ok(Verdict(checked).to_string(heap)?)
    }

    fn by_book(&self, heap: Global, rules: &str) -> Result<String, Failure> {
        let bytes = book_of(heap, rules)?;
        let image = Image::new(bytes.as_slice());
        let book = RuleBook::open(&image).map_err(|_| Failure::Unknown)?;
        self.verdict(heap, &book)
    }

    fn by_pile(&self, heap: Global, rules: &str) -> Result<String, Failure> {
        let (upper, lower) = rules.split_once('/').ok_or(Failure::Unknown)?;
        let board = board_of(heap, upper)?;
        let bytes = book_of(heap, lower)?;
        let image = Image::new(bytes.as_slice());
        let book = RuleBook::open(&image).map_err(|_| Failure::Unknown)?;
        self.verdict(heap, &Pile::new(Lent::new(&board), Lent::new(&book)))
    }
}

// A kind of store is named by a word of the line, and these kinds are closed.
fn case_line(heap: Global, line: &str) -> Result<String, Failure> {
    let (kind, rest) = line.split_once(' ').ok_or(Failure::Unknown)?;
    let (rules, rest) = rest.split_once(' ').ok_or(Failure::Unknown)?;
    let case = Case::parse(heap, rest)?;
    match kind {
        "book" => case.by_book(heap, rules),
        "board" => case.verdict(heap, &board_of(heap, rules)?),
        "pile" => case.by_pile(heap, rules),
        _ => Err(Failure::Unknown),
    }
}

fn main(rt: HostRuntime) -> anyhow::Result<()> {
    let heap = rt.alloc();
    for line in rt.lines(heap) {
        match case_line(heap, line?.as_str()) {
            Ok(text) => rt.println(text)?,
            Err(Failure::Unknown) => println!(rt; "unknown")?,
            Err(Failure::Memory(e)) => return Err(e.into()),
        }
    }
    Ok(())
}
