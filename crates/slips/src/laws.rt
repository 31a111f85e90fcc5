// The laws. Each function does nothing; its contract is the law, and the proof stands behind it.
ghost use Rattle.slips.specs.Examples.{Worked};
ghost use Rattle.slips.specs.Laws.{WhatPassesFollows, OwnSlipsPass, NoneMeansNone, InOrder, WrittenReadsBack, UnknownsInOrder, LooksLeave, BuffersStay};

// A slip that passes the checker, whatever its bytes, claims only replacements that follow from the rules.
pub fn what_passes_follows()
    ensures { WhatPassesFollows }
{}

// Whatever the calls, a slip that the search writes passes the checker for its rules and its query.
pub fn own_slips_pass()
    ensures { OwnSlipsPass }
{}

// Whenever next says that there is no more answer, in any list of calls, every ground replacement of the query's
// variables that follows is covered by an answer given since opening or the last rewind, in the bytes that answer writes.
pub fn none_means_none()
    ensures { NoneMeansNone }
{}

// Of two answers without a rewind between them, the slip of the later one has the later rule numbers in dictionary order.
pub fn in_order()
    ensures { InOrder }
{}

// Wherever an answer can be held, answer and slip write it into every buffer that has room, and reading gives back the
// terms and steps that were written.
pub fn written_reads_back()
    ensures { WrittenReadsBack }
{}

// Terms at the front of a list are numbered as if they stood alone, and unknowns first appear as 0, 1, 2 and so on.
pub fn unknowns_in_order()
    ensures { UnknownsInOrder }
{}

// Hold, answer, slip and tally change nothing that any later call returns.
pub fn looks_leave()
    ensures { LooksLeave }
{}

// A buffer keeps its length and its bytes beyond those written, and every byte where the call is refused.
pub fn buffers_stay()
    ensures { BuffersStay }
{}

// The worked examples compute to what is stated of them.
pub fn examples_work()
    ensures { Worked }
{}
