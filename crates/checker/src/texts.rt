// What a slip is checked by: the rules of a store, the goals of the query, and the slip itself.
ghost use Rattle.std.specs.Prelude.{◌≡◌, ℕ, ◌+◌, ◌^◌, ◌<◌, ◌≤◌, List, length, OnSome};
ghost use Rattle.terms.specs.Terms.{Term};
ghost use Rattle.stores.specs.Answers.{byte_at};
ghost use Rattle.slips.specs.Checker.{has_rule};
ghost use Rattle.slips.specs.Opening.{rules_in};
ghost use Rattle.comparing.specs.Stacks.{Stacked};
ghost use Rattle.comparing.specs.Stages.{has_some, Next};
ghost use Rattle.comparing.specs.Streams.{text_first};
ghost use Rattle.comparing.specs.Texts.{text_of, Comes};

use crate::limits::{FRAMES, VARIABLES};
use arrayvec::ArrayVec;
use comparing::{Cursor, Source};
use grammar::bytes::{PAIR, VARIABLE};
use grammar::commands::Command;
use stores::stores::Store;

#[derive(Drop)]
pub(crate) struct Texts<'a, S> {
    pub(crate) store: &'a S,
    // the goals of the query, one after the other
    pub(crate) body: &'a [u8],
    pub(crate) slip: &'a [u8],
    ghost short: { length body.now ≤ 512 },
    // so many terms can be counted as may be due in the slip and a text
    ghost countable: { length slip.now + 518 < 2 ^ 64 },
}

impl<'a, S: Store> Texts<'a, S> {
    ghost use Rattle.checker.specs.Texts.{sources};

    // A byte of a text.
    fn byte(&self, source: Source, at: u16) -> Option<u8>
        ensures { result ≡ byte_at at (text_of (sources S.Store.rules self.now) source) }
    {
        match source {
            Source::Query => self.body.get(at as usize).copied(),
            Source::Rule(rule) => self.store.byte(rule, at),
        }
    }

    // The command that stands at a place of a text; none at its end.
    pub(crate) fn command(&self, source: Source, at: u16) -> Option<Command>
        ensures { result ≡ text_first (text_of (sources S.Store.rules self.now) source) at }
    {
        match self.byte(source, at)? {
            PAIR => Some(Command::Pair),
            VARIABLE => Some(Command::Var(u16::from(self.byte(source, at + 1)?))),
            _ => {
                let high = self.byte(source, at + 1)?;
                let low = self.byte(source, at + 2)?;
                Some(Command::Atom(u16::from_be_bytes([high, low])))
            }
        }
    }

    // There is a rule with this number that has so many variables.
    pub(crate) fn has_rule(&self, rule: u16, variables: u8) -> bool
        ensures { result ≡ has_rule (rules_in (S.Store.rules self.now.store.now)) rule variables }
    {
        self.store.byte(rule, VARIABLES) == Some(variables)
    }

    // Something is to come at a cursor.
    fn more(&self, cursor: &Cursor) -> bool
        ensures { (table : List ℕ) (pending : List Term) → Comes (sources S.Store.rules self.now) table cursor.now pending → result ≡ has_some pending }
    {
        cursor.inside.is_some() || self.byte(cursor.source, cursor.place).is_some()
    }

    // Takes off the frames that are done, and then the top one of the others, which has the next goal; none where no goal
    // remains.
    pub(crate) fn next_frame(&self, frames: &mut ArrayVec<Cursor, FRAMES>) -> Option<Cursor>
        ensures next { (table : List ℕ) (goals : List Term) → Stacked (Comes (sources S.Store.rules self.now) table) frames.old.items goals → Next (sources S.Store.rules self.now) table frames.new.items result goals }
        ensures fewer { OnSome result (length frames.new.items < length frames.old.items) }
    {
        while let Some(top) = frames.pop() {
            if self.more(&top) {
                return Some(top);
            }
        }
        None
    }
}
