// The operations that a line can ask for.
use std::fmt;
use std::str::FromStr;

// The store that questions go to.
#[derive(Clone, Copy)]
pub enum Choice {
    Board,
    Book,
    // the board over the book
    Pile,
}

// A line that names no store.
#[derive(Clone, Copy)]
pub struct NoChoice;

impl fmt::Display for Choice {
    fn fmt<W: fmt::Write>(&self, f: &mut fmt::Formatter<W>) -> fmt::Result {
        f.write_str(match *self {
            Choice::Board => "board",
            Choice::Book => "book",
            Choice::Pile => "pile",
        })
    }
}

impl FromStr for Choice {
    type Err = NoChoice;

    fn from_str(name: &str) -> Result<Choice, NoChoice> {
        match name {
            "board" => Ok(Choice::Board),
            "book" => Ok(Choice::Book),
            "pile" => Ok(Choice::Pile),
            _ => Err(NoChoice),
        }
    }
}

// What any store answers.
#[derive(Clone, Copy)]
pub enum Question {
    Count,
    Size(u16),
    Byte(u16, u16),
    // into a buffer of so many bytes
    Write(usize),
}

#[derive(Clone, Copy)]
pub enum Op<'a> {
    Choose(Choice),
    // a rule in hexadecimal
    Add(&'a str),
    Remove(u16),
    Ask(Question),
}

// A line that has operands. Operations are named by words, a closed set.
fn with_operands(line: &str) -> Option<Op<'_>> {
    let (name, operands) = line.split_once(' ')?;
    match name {
        "add" => Some(Op::Add(operands)),
        "remove" => Some(Op::Remove(operands.parse().ok()?)),
        "size" => Some(Op::Ask(Question::Size(operands.parse().ok()?))),
        "byte" => {
            let (rule, at) = operands.split_once(' ')?;
            Some(Op::Ask(Question::Byte(rule.parse().ok()?, at.parse().ok()?)))
        }
        "write" => Some(Op::Ask(Question::Write(operands.parse().ok()?))),
        _ => None,
    }
}

pub(crate) fn parse(line: &str) -> Option<Op<'_>> {
    if line == "count" {
        return Some(Op::Ask(Question::Count));
    }
    // `ok().map(Op::Choose)` was tried: the check does not cover a function passed to `map` whose result names a lifetime that
    // its argument does not
    match line.parse() {
        Ok(choice) => Some(Op::Choose(choice)),
        Err(NoChoice) => with_operands(line),
    }
}
