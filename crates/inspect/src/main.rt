// Prints what stands in `book.bin`, item by item.
#![tactic(auto)]

mod lines;

use lines::{item_line, refused_line, world_after};
use reading::books::Book;
use std::fs;

// A line for each item, and a last one with the number of rules or the fault.
fn inspect(rt: &HostRuntime, bytes: &[u8]) -> anyhow::Result<()> {
    let heap = rt.alloc();
    let mut book = match Book::open(bytes) {
        Ok(book) => book,
        Err(fault) => return Ok(rt.println(refused_line(heap, fault)?)?),
    };
    let mut world = 0;
    'items: loop {
        let rules = book.rules();
        let next = match book.item() {
            Ok(next) => next,
            Err(fault) => return Ok(rt.println(refused_line(heap, fault)?)?),
        };
        let Some(item) = next else {
            return Ok(println!(rt; "ok,{rules}")?);
        };
        rt.println(item_line(heap, rules, world, &item)?)?;
        world = world_after(world, &item);
    }
}

fn main(rt: HostRuntime) -> anyhow::Result<()> {
    // A file that cannot be read counts as empty.
    let bytes = fs::read(&rt, "book.bin").unwrap_or_else(|_| Vec::new(rt.alloc()));
    inspect(&rt, bytes.as_slice())
}

#[cfg(test)]
mod tests {
    use crate::lines::refused_line;
    use reading::books::count_rules;
    use std::alloc::Global;
    use std::test::Fail;

    fn last_line(heap: Global, bytes: &[u8]) -> Result<String, Fail> {
        match count_rules(bytes) {
            Ok(rules) => Ok(format!(in heap; "ok,{rules}")?),
            Err(fault) => Ok(refused_line(heap, fault)?),
        }
    }

    // A refused book's last line, with and without the number of a rule.
    #[test]
    fn refusals(rt: HostRuntime) -> Result<(), Fail> {
        let heap = rt.alloc();
        assert_eq!(rt; last_line(heap, b"")?.as_str(), "ok,0");
        assert_eq!(rt;
            last_line(heap, &[0x11, 0, 0x12])?.as_str(),
            "refused,2,2,3,-"
        );
        assert_eq!(rt; last_line(heap, &[0x11])?.as_str(), "refused,3,0,1,-");
        assert_eq!(rt;
            last_line(heap, &[0x11, 0, 0x10, 1, 0, 0, 2, 2, 1])?.as_str(),
            "refused,10,7,2,0"
        );
        Ok(())
    }
}
