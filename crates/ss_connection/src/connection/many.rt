// Values that are appended together.
ghost use Rattle.std.specs.Prelude.{◌≡◌, ◌<◌, length, IfErr, OnOk};
ghost use Rattle.ss_connection.specs.Calls.{Called, IsSilent};
ghost use Rattle.ss_connection.specs.Holds.{IsUsable};
ghost use Rattle.ss_connection.specs.Many.{AppliesMany, IsEventAt, StagesMany, values_at};
ghost use Rattle.ss_outside.specs.Step.{Step};
ghost use Rattle.ss_program.specs.Answer.{IsOpen, IsServing};
ghost use Rattle.ss_program.specs.Status.{IsApplyStop, disk_verdict, ended};

use super::events::{seal_store, stage_event};
use super::{Connection, stop_of};
use ss_catalog::{Event, Name, Refusal};
use ss_model::Ack;
use ss_outside::Disk;
use ss_program::Status;
use ss_report::Reply;
use ss_store::Store;

/// What came of values that were appended together: how many first ones were accepted, what the stream has after the last of these, and
/// why the next one was refused, if there was one.
#[derive(Clone, Copy, Debug, PartialEq, Eq)]
pub struct Taken {
    pub count: usize,
    pub last: Option<Ack>,
    pub refusal: Option<Refusal>,
}

// The event of the value at a place.
fn event_at(name: &Name, times: &[u64], values: &[i64], place: usize) -> Event
    requires times { place < length times.now }
    requires values { place < length values.now }
    ensures { IsEventAt (values_at name.now times.now values.now) place result }
{
    Event::Value {
        name: *name,
        t: times[place],
        v: values[place],
    }
}

// Stages values at times, one after another, up to the first that is refused.
fn stage_values<D: Disk>(
    store: &mut Store,
    name: &Name,
    times: &[u64],
    values: &[i64],
    disk: &mut D,
) -> Result<Taken, Status>
    requires { IsServing (D.seen disk.old) store.old }
    ensures stages { Step (disk_verdict (ended result)) (D.seen disk.old) (D.seen disk.new)
        (StagesMany name.now (values_at name.now times.now values.now) store.old.records store.new.records result) }
    ensures serves { OnOk result (IsServing (D.seen disk.new) store.new) }
    ensures status { IfErr result (IsApplyStop (D.seen disk.old).tells) }
{
    let mut taken = Taken {
        count: 0,
        last: None,
        refusal: None,
    };
    let most = times.len().min(values.len());
    while taken.count < most {
        let event = event_at(name, times, values, taken.count);
        match stage_event(store, &event, disk)? {
            Reply::Done(ack) => {
                taken.count += 1;
                taken.last = Some(ack);
            }
            Reply::Refused(refusal) => {
                taken.refusal = Some(refusal);
                return Ok(taken);
            }
            _ => return Ok(taken),
        }
    }
    Ok(taken)
}

// The same, and brings them to the disk together.
fn append_values<D: Disk>(
    store: &mut Store,
    name: &Name,
    times: &[u64],
    values: &[i64],
    disk: &mut D,
) -> Result<Taken, Status>
    requires { IsServing (D.seen disk.old) store.old }
    ensures applies { Step (disk_verdict (ended result)) (D.seen disk.old) (D.seen disk.new)
        (AppliesMany name.now (values_at name.now times.now values.now) store.old.records store.new.records result) }
    ensures open { OnOk result (IsOpen (D.seen disk.new) store.new) }
    ensures status { IfErr result (IsApplyStop (D.seen disk.old).tells) }
{
    let taken = stage_values(store, name, times, values, disk)?;
    seal_store(store, disk)?;
    Ok(taken)
}

impl Connection {
    /// Stages values at times of a stream, one after another, up to the first that is refused; as many as there are both of. Times are
    /// whole numbers up to `LAST_TIME`.
    pub fn stage_many<D: Disk>(
        &mut self,
        name: &Name,
        times: &[u64],
        values: &[i64],
        disk: &mut D,
    ) -> Result<Taken, Status>
        requires { IsUsable (D.seen disk.old) self.old }
        ensures called { Called IsApplyStop self.old self.new ((self.new ≡ self.old) × (disk.new ≡ disk.old)) result (D.seen disk.old) (D.seen disk.new)
            (StagesMany name.now (values_at name.now times.now values.now) self.old.store.records self.new.store.records result) }
        ensures silent { IsSilent self.old self.new }
    {
        if let Some(status) = self.ended {
            return Err(status);
        }
        self.rows = None;
        let taken = stage_values(&mut self.store, name, times, values, disk);
        self.ended = stop_of(&taken);
        taken
    }

    /// The same, and brings them to the disk, with all that were staged before. A crash meanwhile leaves some first of all. Where memory runs
    /// out some first ones are on the disk, and how many isn't answered.
    pub fn append_many<D: Disk>(
        &mut self,
        name: &Name,
        times: &[u64],
        values: &[i64],
        disk: &mut D,
    ) -> Result<Taken, Status>
        requires { IsUsable (D.seen disk.old) self.old }
        ensures called { Called IsApplyStop self.old self.new ((self.new ≡ self.old) × (disk.new ≡ disk.old)) result (D.seen disk.old) (D.seen disk.new)
            (AppliesMany name.now (values_at name.now times.now values.now) self.old.store.records self.new.store.records result) }
        ensures silent { IsSilent self.old self.new }
    {
        if let Some(status) = self.ended {
            return Err(status);
        }
        self.rows = None;
        let taken = append_values(&mut self.store, name, times, values, disk);
        self.ended = stop_of(&taken);
        taken
    }
}
