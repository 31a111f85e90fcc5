// The laws of a listing. Each function does nothing; its contract is the law, and the proof stands behind it.
ghost use Rattle.listing.specs.Examples.{Worked};

// The worked examples compute to what is stated of them.
pub fn examples_work()
    ensures { Worked }
{}
