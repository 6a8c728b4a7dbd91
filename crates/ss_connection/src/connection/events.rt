// Events as values.
ghost use Rattle.std.specs.Prelude.{◌≡◌, None, IfErr, OnOk};
ghost use Rattle.ss_catalog.specs.Events.{IsInTime};
ghost use Rattle.ss_command.specs.declared.command.Command.TheVariants.{Do};
ghost use Rattle.ss_connection.specs.Calls.{AppliesHeld, Called, IsSilent, SealsHeld, StagesHeld};
ghost use Rattle.ss_connection.specs.Holds.{IsUsable};
ghost use Rattle.ss_connection.specs.Typed.{event_brings, is_in_time};
ghost use Rattle.ss_outside.specs.Disk.{SyncsAtMost};
ghost use Rattle.ss_outside.specs.Step.{Step};
ghost use Rattle.ss_program.specs.Answer.{IsOpen, IsServing};
ghost use Rattle.ss_program.specs.Line.{command_brings};
ghost use Rattle.ss_program.specs.Status.{IsApplyStop, IsDiskStop, disk_verdict, ended};

use super::{Connection, stop_of};
use ss_base::LAST_TIME;
use ss_catalog::{Event, Refusal};
use ss_outside::Disk;
use ss_program::{Status, stage};
use ss_report::Reply;
use ss_store::Store;

// Whether the time of an event can be said.
fn is_in_time(event: &Event) -> bool
    ensures { result ≡ is_in_time event.now }
{
    match event {
        Event::Create { .. } | Event::Drop { .. } => true,
        Event::Value { t, .. } | Event::Open { t, .. } | Event::Close { t, .. } => *t <= LAST_TIME,
    }
}

// Stages an event whose time can be said. Where memory runs out, all that are staged are brought to the disk before the store is of no more
// use, as the program does.
fn stage_in_time<D: Disk>(store: &mut Store, event: &Event, disk: &mut D) -> Result<Reply, Status>
    requires in_time { IsInTime event.now }
    requires serves { IsServing (D.seen disk.old) store.old }
    ensures stages { Step (disk_verdict (ended result)) (D.seen disk.old) (D.seen disk.new)
        (StagesHeld (λ history. command_brings history (Do event.now)) store.old.records store.new.records result) }
    ensures serves { OnOk result (IsServing (D.seen disk.new) store.new) }
    ensures status { IfErr result (IsApplyStop (D.seen disk.old).tells) }
{
    match stage(store, event, disk) {
        Ok(reply) => Ok(reply),
        Err(status) => match status {
            Status::OutOfMemory => {
                seal_store(store, disk)?;
                Err(Status::OutOfMemory)
            }
            _ => Err(status),
        },
    }
}

/// Stages an event, whatever its time is.
pub fn stage_event<D: Disk>(store: &mut Store, event: &Event, disk: &mut D) -> Result<Reply, Status>
    requires { IsServing (D.seen disk.old) store.old }
    ensures stages { Step (disk_verdict (ended result)) (D.seen disk.old) (D.seen disk.new)
        (StagesHeld (λ history. event_brings history event.now) store.old.records store.new.records result) }
    ensures serves { OnOk result (IsServing (D.seen disk.new) store.new) }
    ensures status { IfErr result (IsApplyStop (D.seen disk.old).tells) }
{
    if is_in_time(event) {
        stage_in_time(store, event, disk)
    } else {
        Ok(Reply::Refused(Refusal::Number))
    }
}

/// Brings all staged events of a store to the disk.
pub fn seal_store<D: Disk>(store: &mut Store, disk: &mut D) -> Result<(), Status>
    requires { IsServing (D.seen disk.old) store.old }
    ensures seals { Step (disk_verdict (ended result)) (D.seen disk.old) (D.seen disk.new) (SealsHeld store.old.records store.new.records result) }
    ensures syncs { Step (disk_verdict (ended result)) (D.seen disk.old) (D.seen disk.new) (SyncsAtMost 2) }
    ensures open { OnOk result (IsOpen (D.seen disk.new) store.new) }
    ensures status { IfErr result (IsDiskStop (D.seen disk.old).tells) }
{
    match store.seal(disk) {
        Ok(()) => Ok(()),
        Err(_) => Err(Status::DiskFault),
    }
}

/// Does an event, and brings it to the disk with all that are staged.
pub fn apply_event<D: Disk>(store: &mut Store, event: &Event, disk: &mut D) -> Result<Reply, Status>
    requires { IsServing (D.seen disk.old) store.old }
    ensures applies { Step (disk_verdict (ended result)) (D.seen disk.old) (D.seen disk.new)
        (AppliesHeld (λ history. event_brings history event.now) store.old.records store.new.records result) }
    ensures open { OnOk result (IsOpen (D.seen disk.new) store.new) }
    ensures status { IfErr result (IsApplyStop (D.seen disk.old).tells) }
{
    let reply = stage_event(store, event, disk)?;
    seal_store(store, disk)?;
    Ok(reply)
}

impl Connection {
    /// Stages an event, and answers the reply to it: later calls see it, and the next call that seals brings it to the disk. Until then a
    /// crash leaves some first of the staged events. Times are whole numbers up to `LAST_TIME`. docs/GUIDE.md has the replies.
    pub fn stage<D: Disk>(&mut self, event: &Event, disk: &mut D) -> Result<Reply, Status>
        requires { IsUsable (D.seen disk.old) self.old }
        ensures called { Called IsApplyStop self.old self.new ((self.new ≡ self.old) × (disk.new ≡ disk.old)) result (D.seen disk.old) (D.seen disk.new)
            (StagesHeld (λ history. event_brings history event.now) self.old.store.records self.new.store.records result) }
        ensures silent { IsSilent self.old self.new }
    {
        if let Some(status) = self.ended {
            return Err(status);
        }
        self.rows = None;
        let staged = stage_event(&mut self.store, event, disk);
        self.ended = stop_of(&staged);
        staged
    }

    /// Brings all staged events to the disk, by two syncs at most. A crash meanwhile leaves some first of them.
    pub fn seal<D: Disk>(&mut self, disk: &mut D) -> Result<(), Status>
        requires { IsUsable (D.seen disk.old) self.old }
        ensures syncs { self.old.ended ≡ None → Step (disk_verdict (ended result)) (D.seen disk.old) (D.seen disk.new) (SyncsAtMost 2) }
        ensures called { Called IsDiskStop self.old self.new ((self.new ≡ self.old) × (disk.new ≡ disk.old)) result (D.seen disk.old) (D.seen disk.new)
            (SealsHeld self.old.store.records self.new.store.records result) }
        ensures silent { IsSilent self.old self.new }
    {
        if let Some(status) = self.ended {
            return Err(status);
        }
        self.rows = None;
        let sealed = seal_store(&mut self.store, disk);
        self.ended = stop_of(&sealed);
        sealed
    }

    /// Does an event, brings it to the disk with all that are staged, and answers the reply to it.
    pub fn apply<D: Disk>(&mut self, event: &Event, disk: &mut D) -> Result<Reply, Status>
        requires { IsUsable (D.seen disk.old) self.old }
        ensures called { Called IsApplyStop self.old self.new ((self.new ≡ self.old) × (disk.new ≡ disk.old)) result (D.seen disk.old) (D.seen disk.new)
            (AppliesHeld (λ history. event_brings history event.now) self.old.store.records self.new.store.records result) }
        ensures silent { IsSilent self.old self.new }
    {
        if let Some(status) = self.ended {
            return Err(status);
        }
        self.rows = None;
        let applied = apply_event(&mut self.store, event, disk);
        self.ended = stop_of(&applied);
        applied
    }
}
