// How the cases of a group fare.
use std::alloc::{AllocError, Global};

#[derive(Drop)]
pub(crate) struct Group {
    name: String,
    agree: u32,
    cases: u32,
}

impl Group {
    pub(crate) fn new(heap: Global, name: &str) -> Result<Group, AllocError> {
        Ok(Group {
            name: String::from_str(heap, name)?,
            agree: 0,
            cases: 0,
        })
    }

    pub(crate) fn is_named(&self, name: &str) -> bool {
        self.name.as_str() == name
    }

    pub(crate) fn count(&mut self, agrees: bool) {
        self.cases = self.cases.saturating_add(1);
        if agrees {
            self.agree = self.agree.saturating_add(1);
        }
    }

    // Its line; a group without a case has none.
    pub(crate) fn print(&self, rt: &HostRuntime) -> anyhow::Result<()> {
        if self.cases > 0 {
            let Group { name, agree, cases } = self;
            println!(rt; "{name},{agree},{cases}")?;
        }
        Ok(())
    }
}
