// Reads the books, rules and queries that standard input has in hexadecimal, a line each, and prints what came of it.
#![tactic(auto)]

use hexadecimal::{decode, encode};
use notation::InRule;
use reading::books::count_rules;
use reading::rules::{read_query, read_rule};
use std::alloc::{AllocError, Global};

fn book_line(heap: Global, bytes: &[u8]) -> Result<String, AllocError> {
    match count_rules(bytes) {
        Ok(rules) => format!(in heap; "book,{rules}"),
        Err(fault) => {
            let fault = InRule(fault);
            format!(in heap; "refused,{fault}")
        }
    }
}

fn rule_line(heap: Global, bytes: &[u8]) -> Result<String, AllocError> {
    let rule = match read_rule(bytes) {
        Ok(rule) => rule,
        Err(fault) => return format!(in heap; "refused,{fault}"),
    };
    let variables = rule.variables;
    let goals = rule.goals;
    let head = encode(heap, rule.head)?;
    let body_place = rule.body_place;
    let body = encode(heap, rule.body)?;
    format!(in heap; "rule,{variables},{goals},{head},{body_place},{body}")
}

fn query_line(heap: Global, bytes: &[u8]) -> Result<String, AllocError> {
    let query = match read_query(bytes) {
        Ok(query) => query,
        Err(fault) => return format!(in heap; "refused,{fault}"),
    };
    let variables = query.variables;
    let goals = query.goals;
    let body = encode(heap, query.body)?;
    format!(in heap; "query,{variables},{goals},{body}")
}

// What is read is named by a word of the line, and these kinds are closed.
fn case_line(heap: Global, line: &str) -> Result<String, AllocError> {
    let Some((kind, digits)) = line.split_once(' ') else {
        return String::from_str(heap, "unknown");
    };
    let Some(bytes) = decode(heap, digits.as_bytes())? else {
        return String::from_str(heap, "unknown");
    };
    match kind {
        "book" => book_line(heap, bytes.as_slice()),
        "rule" => rule_line(heap, bytes.as_slice()),
        "query" => query_line(heap, bytes.as_slice()),
        _ => String::from_str(heap, "unknown"),
    }
}

fn main(rt: HostRuntime) -> anyhow::Result<()> {
    let heap = rt.alloc();
    for line in rt.lines(heap) {
        rt.println(case_line(heap, line?.as_str())?)?;
    }
    Ok(())
}
