// Rows, as many at a time as there is room for.
ghost use Rattle.std.specs.Prelude.{◌≡◌, ◌≤◌, [], Some, length, IfErr, IfOk, IfSome, OnOk};
ghost use Rattle.ss_command.specs.Printed.{IsCommandInTime};
ghost use Rattle.ss_connection.specs.Calls.{SaysFurther, SaysOpen};
ghost use Rattle.ss_connection.specs.Holds.{CanBeTaken, IsPiece};
ghost use Rattle.ss_connection.specs.declared.text.TheConstants.{MOST_SAID};
ghost use Rattle.ss_connection.specs.Showing.{Fills, IsFilled};
ghost use Rattle.ss_outside.specs.Step.{Step};
ghost use Rattle.ss_program.specs.Answer.{HasRows, IsOpen};
ghost use Rattle.ss_program.specs.Line.{command_brings};
ghost use Rattle.ss_program.specs.Rows.{RowsStand};
ghost use Rattle.ss_program.specs.Status.{IsDiskStop, disk_verdict, ended};

use crate::text::Text;
use ss_command::Command;
use ss_outside::Disk;
use ss_program::{Rows, Status};
use ss_store::Store;

// Adds rows to the text while there is room for one more, and answers those that are left.
fn fill<D: Disk>(
    mut rows: Rows,
    store: &mut Store,
    text: &mut Text,
    disk: &mut D,
) -> Result<Option<Rows>, Status>
    requires stand { RowsStand store.old.streams rows }
    requires fits { length text.old ≤ MOST_SAID }
    requires open { IsOpen (D.seen disk.old) store.old }
    ensures fills { Step (disk_verdict (ended result)) (D.seen disk.old) (D.seen disk.new) (Fills store.old.streams rows text.old text.new result) }
    ensures filled { IfOk result (IsFilled store.old.streams text.new) }
    ensures streams { store.new.streams ≡ store.old.streams }
    ensures open { OnOk result (IsOpen (D.seen disk.new) store.new) }
    ensures status { IfErr result (IsDiskStop (D.seen disk.old).tells) }
{
    while text.has_room() {
        match rows.next(store, disk)? {
            Some(row) => text.add(&row),
            None => return Ok(None),
        }
    }
    Ok(Some(rows))
}

/// Says what a command shows: the head of its rows, and of these as many as there is room for. Answers those that are left.
pub fn say_rows<D: Disk>(
    store: &mut Store,
    command: &Command,
    text: &mut Text,
    disk: &mut D,
) -> Result<Option<Rows>, Status>
    requires in_time { IsCommandInTime command.now }
    requires rows { HasRows command.now }
    requires open { IsOpen (D.seen disk.old) store.old }
    ensures says { Step (disk_verdict (ended result)) (D.seen disk.old) (D.seen disk.new)
        (SaysOpen (λ history. command_brings history command.now) store.old store.new text.new result) }
    ensures stand { IfOk result (λ left. IfSome left (CanBeTaken store.new)) }
    ensures piece { IfOk result (IsPiece text.new) }
    ensures open { OnOk result (IsOpen (D.seen disk.new) store.new) }
    ensures status { IfErr result (IsDiskStop (D.seen disk.old).tells) }
{
    let (head, rows) = Rows::start(store, command, disk)?;
    text.say(&head);
    fill(rows, store, text, disk)
}

/// Says further rows in place of what was said before, and answers those that are left then.
pub fn say_further<D: Disk>(
    rows: Rows,
    store: &mut Store,
    text: &mut Text,
    disk: &mut D,
) -> Result<Option<Rows>, Status>
    requires stand { CanBeTaken store.old rows }
    requires open { IsOpen (D.seen disk.old) store.old }
    ensures says { Step (disk_verdict (ended result)) (D.seen disk.old) (D.seen disk.new) (SaysFurther (Some rows) store.old store.new text.new result) }
    ensures stand { IfOk result (λ left. IfSome left (CanBeTaken store.new)) }
    ensures piece { IfOk result (IsPiece text.new) }
    ensures open { OnOk result (IsOpen (D.seen disk.new) store.new) }
    ensures status { IfErr result (IsDiskStop (D.seen disk.old).tells) }
{
    text.clear();
    fill(rows, store, text, disk)
}
