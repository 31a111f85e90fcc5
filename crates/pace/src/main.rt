// Runs the searches that standard input has, a line each, to their ends again and again. Standard output gets what each came to,
// and standard error the time of a try. A line is a name, a number of runs, and book and query in hexadecimal.
#![tactic(auto)]

use anyhow::Context;
use engine::search::Search;
use hexadecimal::decode;
use resolution::limits::MOST_TRIES;
use resolution::{Refusal, Tally, Word};
use std::time::Instant;
use stores::rulebooks::{Image, RuleBook};

// the most calls of next in a run
const MOST_CALLS: u32 = 1000;

// Calls next until it has no more answers or stops, and tells its last word.
fn run(search: &mut Search) -> Result<Word, Refusal> {
    search.rewind();
    let mut word = Word::Spent;
    for _ in 0..MOST_CALLS {
        word = search.next(MOST_TRIES)?.word;
        if matches!(word, Word::NoMore | Word::Stopped(_)) {
            break;
        }
    }
    Ok(word)
}

// The nanoseconds that each run takes, the quickest first.
fn times(rt: &HostRuntime, search: &mut Search, runs: u32) -> anyhow::Result<Vec<u128>> {
    let mut times = Vec::new(rt.alloc());
    for _ in 0..runs {
        let start = Instant::now(rt)?;
        run(search)?;
        times.push(start.elapsed(rt)?.as_nanos())?;
    }
    times.sort()?;
    Ok(times)
}

// Prints a time as nanoseconds a try, with one decimal. A search without tries has none.
fn show(rt: &HostRuntime, name: &str, what: &str, nanos: u128, tries: u32) -> anyhow::Result<()> {
    if let Some(tenths) = nanos.saturating_mul(10).checked_div(tries.into()) {
        eprintln!(rt;
            "{name}: {what} {}.{} nanoseconds a try",
            tenths / 10,
            tenths % 10
        )?;
    }
    Ok(())
}

fn pace(rt: &HostRuntime, name: &str, runs: u32, search: &mut Search) -> anyhow::Result<()> {
    let word = run(search)?;
    let Tally { tries, answers, .. } = search.tally();
    println!(rt; "{name},{word},{tries},{answers}")?;
    let times = times(rt, search, runs)?;
    if let Some(&best) = times.first() {
        show(rt, name, "best", best, tries)?;
    }
    if let Some(&middle) = times.get(times.len() / 2) {
        show(rt, name, "median", middle, tries)?;
    }
    Ok(())
}

// The bytes that the digits spell.
fn bytes(rt: &HostRuntime, digits: &str) -> anyhow::Result<Vec<u8>> {
    decode(rt.alloc(), digits.as_bytes())?.context("not hexadecimal")
}

// The search of a line. A line that has none ends the program.
fn case(rt: &HostRuntime, line: &str) -> anyhow::Result<()> {
    let (name, rest) = line.split_once(' ').context("no number of runs")?;
    let (runs, rest) = rest.split_once(' ').context("no book")?;
    let (book, query) = rest.split_once(' ').context("no query")?;
    let book = bytes(rt, book)?;
    let query = bytes(rt, query)?;
    let image = Image::new(book.as_slice());
    let store = RuleBook::open(&image)?;
    let mut search = Search::open(&store, query.as_slice())?;
    pace(rt, name, runs.parse()?, &mut search)
}

fn main(rt: HostRuntime) -> anyhow::Result<()> {
    for line in rt.lines(rt.alloc()) {
        case(&rt, line?.as_str())?;
    }
    Ok(())
}
