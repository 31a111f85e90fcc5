// The laws of writing. Each function does nothing; its contract is the law, and the proof stands behind it.
ghost use Rattle.books.specs.Laws.{WrittenRulesReadBack, BooksAreWrittenBack};

// What is written of a list of fit rules reads back as a book of exactly those rules.
pub fn written_rules_read_back()
    ensures { WrittenRulesReadBack }
{}

// The rules of a book that has one world, `11 00` before its first rule, are written as that book again.
pub fn books_are_written_back()
    ensures { BooksAreWrittenBack }
{}
