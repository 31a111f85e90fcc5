// The readable notation of terms: a variable is `?3`, a pair `(a . b)`, and `(a b)` stands for `(a . (b . 0))`.
#![tactic(auto)]

pub mod laws;

ghost use Rattle.std.specs.Prelude.{Some, ◌≤◌, ◌<◌, length, IsOk, IfSome};
ghost use Rattle.reading.specs.Views.{rule_view};
ghost use Rattle.notation.specs.Commands.{text, first_text, all_text, rule_text, term_text};
ghost use Rattle.notation.specs.Notation.{or_dash, in_rule_text};
ghost use Rattle.notation.specs.Writing.{ahead, Takes, Writes};

use grammar::commands::Command;
use grammar::faults::BookFault;
use reading::commands::Reader;
use reading::rules;
use std::fmt;
use terms::Form;

// The first term that stands in the bytes.
#[derive(Clone, Copy)]
pub struct Term<'a>(pub &'a [u8]);

// All the terms that stand in the bytes.
#[derive(Clone, Copy)]
pub struct Terms<'a>(pub &'a [u8]);

// A rule: its head, and its goals where it has some.
#[derive(Clone, Copy)]
pub struct Rule<'a>(pub rules::Rule<'a>);

// A value, or `-` where there is none.
#[derive(Clone, Copy)]
pub struct OrDash<T>(pub Option<T>);

// A fault of a book, with the number of the rule that it was found in.
#[derive(Clone, Copy)]
pub struct InRule(pub BookFault);

// The command that stands next, where one does.
fn next(reader: &mut Reader) -> Option<Command>
    ensures takes { Takes (ahead reader.old) result (ahead reader.new) }
    ensures fewer { IfSome result (λ _. length reader.new.bytes.now < length reader.old.bytes.now) }
    ensures onward { length reader.new.bytes.now ≤ length reader.old.bytes.now }
{
    reader.command(Form::Rules).ok().flatten()
}

// Writes the term that a command begins, whose other commands the reader gives.
fn write_term<W: fmt::Write>(
    first: Command,
    reader: &mut Reader,
    f: &mut fmt::Formatter<W>,
) -> fmt::Result
    ensures writes { IsOk result → Writes W.write_str_gives f.old f.new (term_text first (ahead reader.old)) (λ d. text d (ahead reader.new)) }
    ensures onward { length reader.new.bytes.now ≤ length reader.old.bytes.now }
{
    match first {
        Command::Atom(number) => return write!(f, "{number}"),
        Command::Var(number) => return write!(f, "?{number}"),
        Command::Pair => f.write_str("(")?,
    }
    'parts: loop {
        let Some(part) = next(reader) else {
            return Ok(());
        };
        write_term(part, reader, f)?;
        match next(reader) {
            Some(Command::Pair) => f.write_str(" ")?,
            Some(Command::Atom(0)) => return f.write_str(")"),
            Some(Command::Atom(number)) => return write!(f, " . {number})"),
            Some(Command::Var(number)) => return write!(f, " . ?{number})"),
            None => return Ok(()),
        }
    }
}

impl fmt::Display for Term<'_> {
    ghost output = { λ t. Some (first_text t.0.now) };

    fn fmt<W: fmt::Write>(&self, f: &mut fmt::Formatter<W>) -> fmt::Result {
        let mut reader = Reader::new(self.0);
        match next(&mut reader) {
            Some(first) => write_term(first, &mut reader, f),
            None => Ok(()),
        }
    }
}

impl fmt::Display for Terms<'_> {
    ghost output = { λ t. Some (all_text t.0.now) };

    fn fmt<W: fmt::Write>(&self, f: &mut fmt::Formatter<W>) -> fmt::Result {
        let mut reader = Reader::new(self.0);
        let Some(first) = next(&mut reader) else {
            return Ok(());
        };
        write_term(first, &mut reader, f)?;
        'others: while let Some(other) = next(&mut reader) {
            f.write_str(", ")?;
            write_term(other, &mut reader, f)?;
        }
        Ok(())
    }
}

impl fmt::Display for Rule<'_> {
    ghost output = { λ r. Some (rule_text (rule_view r.0)) };

    fn fmt<W: fmt::Write>(&self, f: &mut fmt::Formatter<W>) -> fmt::Result {
        let Rule(rule) = self;
        write!(f, "{}", Term(rule.head))?;
        if rule.goals > 0 {
            write!(f, " if {}", Terms(rule.body))?;
        }
        Ok(())
    }
}

impl<T: fmt::Display> fmt::Display for OrDash<T> {
    ghost output = { λ d. or_dash T.output d.0 };

    fn fmt<W: fmt::Write>(&self, f: &mut fmt::Formatter<W>) -> fmt::Result {
        match &self.0 {
            Some(value) => value.fmt(f),
            None => f.write_str("-"),
        }
    }
}

impl fmt::Display for InRule {
    ghost output = { λ r. Some (in_rule_text r.0) };

    fn fmt<W: fmt::Write>(&self, f: &mut fmt::Formatter<W>) -> fmt::Result {
        write!(f, "{},{}", self.0, OrDash(self.0.rule()))
    }
}

#[cfg(test)]
mod tests {
    use crate::{InRule, OrDash, Rule, Term, Terms};
    use grammar::faults::BookFault;
    use reading::rules::read_rule;
    use std::alloc::Global;
    use std::test::Fail;

    fn rule_text(heap: Global, bytes: &[u8]) -> Result<String, Fail> {
        match read_rule(bytes) {
            Ok(rule) => Ok(Rule(rule).to_string(heap)?),
            Err(_) => Ok(String::new(heap)),
        }
    }

    // Terms, the first of them alone, and a rule with and without goals.
    #[test]
    fn texts(rt: HostRuntime) -> Result<(), Fail> {
        let heap = rt.alloc();
        let terms = [
            0x03, 0x01, 0, 1, 0x03, 0x02, 2, 0x01, 0, 0, 0x03, 0x01, 0xff, 0xff, 0x02, 3,
        ];
        assert_eq!(rt;
            Terms(&terms).to_string(heap)?.as_str(),
            "(1 ?2), (65535 . ?3)"
        );
        assert_eq!(rt; Term(&terms).to_string(heap)?.as_str(), "(1 ?2)");
        assert_eq!(rt; Term(&[]).to_string(heap)?.as_str(), "");
        assert_eq!(rt; Terms(&[0x03, 0x02, 7, 9]).to_string(heap)?.as_str(), "(?7");
        assert_eq!(rt; OrDash(Some(7u16)).to_string(heap)?.as_str(), "7");
        let many = BookFault::TooManyRules {
            place: 9000,
            number: 1024,
        };
        assert_eq!(rt; InRule(many).to_string(heap)?.as_str(), "4,9000,3,1024");
        assert_eq!(rt;
            InRule(BookFault::TooLong).to_string(heap)?.as_str(),
            "1,0,3,-"
        );
        assert_eq!(rt; OrDash::<u16>(None).to_string(heap)?.as_str(), "-");
        let fact = [0x10, 0, 0, 0, 3, 0x01, 0, 9];
        let clause = [0x10, 1, 2, 0, 8, 0x01, 0, 9, 0x02, 0, 0x01, 0, 4];
        assert_eq!(rt; rule_text(heap, &fact)?.as_str(), "9");
        assert_eq!(rt; rule_text(heap, &clause)?.as_str(), "9 if ?0, 4");
        Ok(())
    }
}
