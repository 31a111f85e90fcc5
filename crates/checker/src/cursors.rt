// Going over a text command by command, and at a variable over its term in the slip.
ghost use Rattle.std.specs.Prelude.{◌≡◌, ◌+◌, ◌-◌, ◌^◌, ◌<◌, List, length};
ghost use Rattle.terms.specs.Terms.{Term};
ghost use Rattle.comparing.specs.Cursors.{DueAt, Went, Took, left_inside, weight};
ghost use Rattle.comparing.specs.Streams.{due_after as due_left};
ghost use Rattle.comparing.specs.Texts.{SomeTerm, Agreed};
ghost use Rattle.checker.specs.Texts.{sources, ToCome};

use crate::texts::Texts;
use comparing::{Cursor, Inside};
use grammar::commands::Command;
use reading::commands::{Reader, command_size};
use stores::stores::Store;
use terms::Form;

// The texts, and where the terms of the slip begin that stand for their variables.
#[derive(Drop)]
pub(crate) struct Under<'a, S> {
    pub(crate) texts: &'a Texts<'a, S>,
    pub(crate) table: &'a [usize],
}

// How many terms are due after a command, where so many were due with it.
pub(crate) fn due_after(due: usize, command: Command) -> usize
    requires some { 0 < due }
    requires room { due + 1 < 2 ^ 64 }
    ensures { result ≡ due_left (due - 1) command }
{
    match command {
        Command::Pair => due + 1,
        Command::Atom(_) | Command::Var(_) => due - 1,
    }
}

// The next command of the terms that are due in the slip, and what is due behind it.
fn inside(slip: &[u8], at: Inside) -> (Command, Option<Inside>)
    requires { (ts : List Term) × DueAt slip.now at ts }
    ensures went { (ts : List Term) → DueAt slip.now at ts → Went slip.now result.0 result.1 ts }
    ensures nearer { left_inside slip.now result.1 < length slip.now - at.place }
{
    let mut reader = Reader::from_place(slip, at.place);
    // a term is due, so a command is there
    let command = reader.command(Form::Slips).unwrap().unwrap();
    let due = due_after(at.due, command);
    let left = Inside {
        place: reader.place(),
        due,
    };
    (command, (due > 0).then_some(left))
}

impl<'a, S: Store> Under<'a, S> {
    // The next command of a text under the terms of the slip, where a term is to come.
    fn next(&self, cursor: &mut Cursor) -> Command
        requires { SomeTerm (sources S.Store.rules self.now.texts.now) self.now.table.now cursor.old }
        ensures took { (pending : List Term) → ToCome S.Store.rules self.now cursor.old pending → Took (ToCome S.Store.rules self.now cursor.new) pending result }
        ensures nearer { weight self.now.texts.now.slip.now cursor.new < weight self.now.texts.now.slip.now cursor.old }
    {
        if let Some(at) = cursor.inside {
            let (command, left) = inside(self.texts.slip, at);
            cursor.inside = left;
            return command;
        }
        // a term is to come, so a command is there
        let command = self.texts.command(cursor.source, cursor.place).unwrap();
        cursor.place += command_size(command, Form::Rules);
        let Command::Var(number) = command else {
            return command;
        };
        let at = Inside {
            place: self.table[cursor.first + number as usize],
            due: 1,
        };
        let (command, left) = inside(self.texts.slip, at);
        cursor.inside = left;
        command
    }

    // Takes a term off both cursors, command by command, as long as they are the same.
    pub(crate) fn agree(&self, head: &mut Cursor, goal: &mut Cursor) -> bool
        requires head { SomeTerm (sources S.Store.rules self.now.texts.now) self.now.table.now head.old }
        requires goal { SomeTerm (sources S.Store.rules self.now.texts.now) self.now.table.now goal.old }
        ensures { Agreed (sources S.Store.rules self.now.texts.now) self.now.table.now head.old goal.old head.new goal.new result }
    {
        // how many terms are still to be compared
        let mut due: usize = 1;
        while due > 0 {
            let command = self.next(head);
            if self.next(goal) != command {
                return false;
            }
            due = due_after(due, command);
        }
        true
    }
}
