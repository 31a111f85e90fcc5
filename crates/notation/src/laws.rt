// What is shown of the bytes of terms. Each function does nothing; its contract is the law, and the proof stands behind it.
ghost use Rattle.notation.specs.Examples.{Worked};
ghost use Rattle.notation.specs.Laws.{FirstIsShown, AllAreShown, RuleIsShown};

// Of bytes that begin with a term, that term is shown.
pub fn first_is_shown()
    ensures { FirstIsShown }
{}

// Of the bytes of terms, these terms are shown.
pub fn all_are_shown()
    ensures { AllAreShown }
{}

// Of a rule that was read, that rule is shown.
pub fn rule_is_shown()
    ensures { RuleIsShown }
{}

// The worked examples compute to what is stated of them.
pub fn examples_work()
    ensures { Worked }
{}
