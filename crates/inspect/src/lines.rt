// The lines that are printed.
use grammar::faults::BookFault;
use notation::InRule;
use reading::books::Item;
use reading::rules::Rule;
use std::alloc::{AllocError, Global};

// An item after so many rules, in this world.
pub(crate) fn item_line(
    heap: Global,
    rules: u16,
    world: u8,
    item: &Item,
) -> Result<String, AllocError> {
    match item {
        Item::World { number, place } => format!(in heap; "world,{number},{place}"),
        Item::Rule(rule) => {
            let Rule {
                place,
                variables,
                goals,
                ..
            } = *rule;
            let text = notation::Rule(*rule);
            format!(in heap; "rule,{rules},{world},{place},{variables},{goals},{text}")
        }
    }
}

pub(crate) fn refused_line(heap: Global, fault: BookFault) -> Result<String, AllocError> {
    let fault = InRule(fault);
    format!(in heap; "refused,{fault}")
}

// The world that covers what comes after an item.
pub(crate) fn world_after(world: u8, item: &Item) -> u8 {
    match item {
        Item::World { number, .. } => *number,
        Item::Rule(_) => world,
    }
}
