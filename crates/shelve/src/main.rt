// Puts rules on a board over a book, and prints what became of each line of `ops.txt`.
#![tactic(auto)]

mod lines;
mod ops;

use boards::boards::Board;
use lines::{add_line, answer_line, remove_line};
use notation::InRule;
use ops::{Choice, Op, Question, parse};
use std::alloc::{AllocError, Global};
use std::fs;
use stores::lent::Lent;
use stores::piles::Pile;
use stores::rulebooks::{Image, RuleBook};

// What the chosen store answers. The three stores are a closed set, of different types.
fn asked(
    heap: Global,
    choice: Choice,
    board: &Board,
    book: &RuleBook,
    question: Question,
) -> Result<String, AllocError> {
    match choice {
        Choice::Board => answer_line(heap, board, question),
        Choice::Book => answer_line(heap, book, question),
        Choice::Pile => {
            let pile = Pile::new(Lent::new(board), Lent::new(book));
            answer_line(heap, &pile, question)
        }
    }
}

// A line for each operation.
fn shelve(rt: &HostRuntime, book: &RuleBook, text: &str) -> anyhow::Result<()> {
    let heap = rt.alloc();
    let mut board = Board::new();
    let mut choice = Choice::Board;
    for line in text.lines() {
        let printed = match parse(line) {
            Some(Op::Choose(store)) => {
                choice = store;
                store.to_string(heap)?
            }
            Some(Op::Add(digits)) => add_line(heap, &mut board, digits)?,
            Some(Op::Remove(rule)) => remove_line(heap, &mut board, rule)?,
            Some(Op::Ask(question)) => asked(heap, choice, &board, book, question)?,
            None => String::from_str(heap, "unknown")?,
        };
        rt.println(printed)?;
    }
    Ok(())
}

// A file that cannot be read counts as empty.
fn main(rt: HostRuntime) -> anyhow::Result<()> {
    let heap = rt.alloc();
    let bytes = fs::read(&rt, "book.bin").unwrap_or_else(|_| Vec::new(heap));
    let text = fs::read_to_string(&rt, "ops.txt").unwrap_or_else(|_| String::new(heap));
    let image = Image::new(bytes.as_slice());
    match RuleBook::open(&image) {
        Ok(book) => shelve(&rt, &book, text.as_str()),
        Err(fault) => {
            let fault = InRule(fault);
            Ok(println!(rt; "refused,{fault}")?)
        }
    }
}
