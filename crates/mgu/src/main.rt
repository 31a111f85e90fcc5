// Prints the common instance of each pair of facts in `pairs.txt`, or `no`; a fact that cannot be read prints the
// number, the place and the layer of its fault. A line has the bytes of two facts in hexadecimal, `|` between them.
#![tactic(auto)]

use machine::facts::{FactsFault, unify_facts};
use std::alloc::Global;
use std::fs;

fn bytes(heap: Global, words: &str) -> anyhow::Result<Vec<u8>> {
    words
        .split_whitespace()
        .map(|word| -> anyhow::Result<u8> { Ok(u8::from_str_radix(word, 16)?) })
        .try_collect(heap)
}

fn print_pair(rt: &HostRuntime, left: &[u8], right: &[u8]) -> anyhow::Result<()> {
    let mut buffer = [0u8; 512];
    match unify_facts(left, right, &mut buffer) {
        Ok(Some(length)) => {
            let term = notation::Term(&buffer[..length]);
            println!(rt; "{term}")?;
        }
        Ok(None) => println!(rt; "no")?,
        Err(FactsFault::NoRoom) => println!(rt; "long")?,
        Err(FactsFault::Reading(fault)) => println!(rt; "refused,{fault}")?,
    }
    Ok(())
}

fn main(rt: HostRuntime) -> anyhow::Result<()> {
    let heap = rt.alloc();
    let text = fs::read_to_string(&rt, "pairs.txt")?;
    for line in text.as_str().lines() {
        if let Some((left, right)) = line.split_once('|') {
            let left = bytes(heap, left)?;
            let right = bytes(heap, right)?;
            print_pair(&rt, left.as_slice(), right.as_slice())?;
        }
    }
    Ok(())
}
