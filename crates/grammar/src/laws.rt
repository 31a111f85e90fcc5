// The laws of reading. Each function does nothing; its contract is the law, and the proof stands behind it.
ghost use Rattle.grammar.specs.Laws.{RulesAreTheirBytes, QueriesAreTheirBytes, BooksAreTheirItems, FaultsStandInside, FaultsLeaveWhatIsBefore};

// Bytes are accepted as a single rule exactly where they are the encoding of a rule within the limits,
// and reading gives that rule; different rules have different encodings.
pub fn rules_are_their_bytes()
    ensures { RulesAreTheirBytes }
{}

// The same of queries.
pub fn queries_are_their_bytes()
    ensures { QueriesAreTheirBytes }
{}

// Bytes are accepted as a book exactly where they are the bytes of items, one after the other, within the limits.
pub fn books_are_their_items()
    ensures { BooksAreTheirItems }
{}

// No fault stands beyond the end of the bytes.
pub fn faults_stand_inside()
    ensures { FaultsStandInside }
{}

// What stands before the item that has the fault is a book by itself, and the fault is that of this item.
pub fn faults_leave_what_is_before()
    ensures { FaultsLeaveWhatIsBefore }
{}
