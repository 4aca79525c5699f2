// The labels of `switch` (C17 6.8.4.2).

ghost use Rattle.std.specs.Prelude.{◌≡◌};
ghost use Rattle.c_typed.specs.Table.{Interned};
ghost use Rattle.c_typed.specs.StatementViews.{stmt_in};
ghost use Rattle.ref_meaning.specs.Trees.{StmtFits};
ghost use Rattle.ref_meaning.specs.declared.control.Task.TheVariants as K;
ghost use Rattle.ref_meaning.specs.Views.{part_in, stmt_of, case_items_of};
ghost use Rattle.ref_meaning.specs.Holding.{IsConsistent, NodeStands};
ghost use Rattle.ref_meaning.specs.Items.{CaseItemIs};
ghost use Rattle.ref_meaning.specs.Doing.{acting};
ghost use Rattle.ref_meaning.specs.Moving.{Moves, IsKept};

use crate::control::{Completion, Node, Stage, Task};
use crate::run::{Halt, RefRun};
use c_typed::{Stmt, SwitchItem};

/// An item of a `switch`, by its number.
pub(crate) fn case_item(stmt: &Stmt, number: usize) -> Option<&SwitchItem>
    ensures { (table : Interned) → StmtFits table stmt.now → CaseItemIs table number (case_items_of (stmt_in table stmt.now)) result }
{
    match stmt {
        Stmt::Switch { items, .. } => items.get(number),
        _ => None,
    }
}

fn switch_item(switch: Node<'_>, number: usize) -> Option<&SwitchItem>
    ensures { (table : Interned) → NodeStands table switch.entry → CaseItemIs table number (case_items_of (stmt_of (part_in table switch.entry))) result }
{
    match switch {
        Node::Stmt(stmt) => case_item(stmt, number),
        _ => None,
    }
}

impl<'a> RefRun<'a> {
    /// Looks at an item: a label that fits is where the `switch` goes on. Behind the last it goes on at `default`.
    pub(crate) fn label(
        &mut self,
        switch: Node<'a>,
        value: i128,
        number: usize,
        default: Option<usize>,
    ) -> Result<(), Halt>
        requires holds { IsConsistent self.old }
        requires control { self.old.control ≡ record { node = switch; task = K.Label value number default } }
        ensures moves { Moves self.old self.new (acting self.old) result }
        ensures kept { IsKept self.old self.new }
    {
        let Some(item) = switch_item(switch, number) else {
            return match default {
                Some(number) => self.part(switch, Stage::Item(number), Completion::Normal),
                None => self.go(Completion::Normal),
            };
        };
        let default = match item {
            SwitchItem::Case(label) => {
                if *label == value {
                    return self.part(switch, Stage::Item(number), Completion::Normal);
                }
                default
            }
            SwitchItem::Default => match default {
                Some(first) => Some(first),
                None => Some(number),
            },
            SwitchItem::Statement(_) => default,
        };
        self.control.task = Task::Label {
            value,
            number: number + 1,
            default,
        };
        Ok(())
    }
}
