// The windows of a stream, one after another.
ghost use Rattle.std.specs.Prelude.{◌≡◌, IsSome, IfOk, IfErr, IfSome, OnOk};
ghost use Rattle.ss_line.specs.Line.{StandsIn};
ghost use Rattle.ss_outside.specs.Step.{Step};
ghost use Rattle.ss_store.specs.Kept.{part_numbered};
ghost use Rattle.ss_program.specs.Answer.{IsOpen, IsRowAt, ReadsAnswer};
ghost use Rattle.ss_program.specs.Rows.{Begins, RowsGoOn, TakesRow, WindowStands};
ghost use Rattle.ss_program.specs.Status.{disk_verdict, ended, IsDiskStop};
ghost use Rattle.ss_command.specs.declared.command.Command.TheVariants.{Windows};

use crate::rows::Rows;
use crate::status::Status;
use ss_catalog::{Name, Refusal, StreamId};
use ss_line::At;
use ss_model::Placed;
use ss_outside::Disk;
use ss_report::Reply;
use ss_store::{AskError, Store};

// Reads a window.
fn read<D: Disk>(store: &mut Store, id: StreamId, at: At, disk: &mut D) -> Result<Placed, Status>
    requires open { IsOpen (D.seen disk.old) store.old }
    requires stands { IsSome (part_numbered id.0 store.old.streams) }
    requires at { IfSome (part_numbered id.0 store.old.streams) (λ part. StandsIn part.line.entries at) }
    ensures reads { Step (disk_verdict (ended result)) (D.seen disk.old) (D.seen disk.new) (ReadsAnswer (IsRowAt id.0 at store.old) result) }
    ensures streams { store.new.streams ≡ store.old.streams }
    ensures open { OnOk result (IsOpen (D.seen disk.new) store.new) }
    ensures status { IfErr result (IsDiskStop (D.seen disk.old).tells) }
{
    match store.window_read(disk, id, at) {
        Ok(window) => Ok(window),
        Err(AskError::Disk) => Err(Status::DiskFault),
        Err(AskError::Changed { .. }) => Err(Status::RecordChanged),
        Err(AskError::Refused(_) | AskError::Stopped) => unreachable!(),
    }
}

/// Begins to show the windows of a stream, oldest first, if it stands.
pub fn begin_windows(store: &Store, name: &Name) -> (Reply, Rows)
    ensures { Begins (Windows name.now) store.now result }
{
    let Some(id) = store.find(name) else {
        return (Reply::Refused(Refusal::Unknown), Rows::End);
    };
    let next = store.window_first(id);
    (
        Reply::WindowsHead(store.windows(id)),
        Rows::Windows { id, next },
    )
}

/// Takes the row of the next window of a stream.
pub fn next_window<D: Disk>(
    id: StreamId,
    next: &mut Option<At>,
    store: &mut Store,
    disk: &mut D,
) -> Result<Option<Reply>, Status>
    requires stands { WindowStands store.old.streams id.0 next.old }
    requires open { IsOpen (D.seen disk.old) store.old }
    ensures takes { Step (disk_verdict (ended result)) (D.seen disk.old) (D.seen disk.new)
        (TakesRow store.old.streams (Rows.Windows id next.old) (Rows.Windows id next.new) result) }
    ensures goes_on { IfOk result (RowsGoOn (Rows.Windows id next.old) (Rows.Windows id next.new) store.old.streams) }
    ensures streams { store.new.streams ≡ store.old.streams }
    ensures open { OnOk result (IsOpen (D.seen disk.new) store.new) }
    ensures status { IfErr result (IsDiskStop (D.seen disk.old).tells) }
{
    let Some(at) = *next else {
        return Ok(None);
    };
    let window = read(store, id, at, disk)?;
    *next = store.window_after(id, at);
    Ok(Some(Reply::Window(window)))
}
