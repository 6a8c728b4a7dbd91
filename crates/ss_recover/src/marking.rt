// The landmarks of a stream, among its records in the order of their places.
ghost use Rattle.std.specs.Prelude.{◌≡◌, ◌<◌, ◌≤◌, All, IsTrue, length, Some, OnOk, IfOk, IfErr};
ghost use Rattle.ss_landmarks.specs.Landmarks.{AreKnown};
ghost use Rattle.ss_landmarks.specs.Order.{CanOpen, CanTake};
ghost use Rattle.ss_base.specs.declared.limits.TheConstants.{LAST_TIME};
ghost use Rattle.ss_model.specs.Marks.{later};
ghost use Rattle.ss_model.specs.declared.types.TheConstants.{MOST_RECORDS};
ghost use Rattle.ss_landmarks.specs.Free.{is_up_to};
ghost use Rattle.ss_recover.specs.Marked.{are_counted, are_in_time, are_marks, are_numbered, is_counted, is_in_time, next_from};
ghost use Rattle.ss_recover.specs.Marked.{opens_from, rise_within, values_first};
ghost use Rattle.ss_recover.specs.Order.{stream_of};
ghost use Rattle.ss_recover.specs.Runs.{marks_in};
ghost use Rattle.ss_recover.specs.Shown.{AreMade, HasMarkRoom, MayClose, MayCome, all_closed, marks_shown};
ghost use Rattle.ss_recover.specs.Shown.{with_closing, with_found, with_landmark, with_mark_value};
ghost use Rattle.ss_recover.specs.Usable.{IsUsable, without_slots};
ghost use Rattle.ss_recover.specs.declared.recover_error.RecoverError.TheVariants.{OutOfMemory};

use crate::RecoverError;
use crate::found::Found;
use ss_codec::Record;
use ss_landmarks::Landmarks;
use std::alloc::Global;

// Whether each landmark has the number after that of the one before it, and each value the number of the last one and the next index.
fn are_numbered(found: &[Found]) -> bool
    ensures { result ≡ are_numbered 0 0 (without_slots found.now) }
{
    let mut landmarks = 0;
    let mut values = 0;
    for one in found {
        match one.holds {
            Record::Free | Record::Stream { .. } | Record::Window { .. } => {}
            Record::Landmark { number, .. } => {
                if number == 0 || number - 1 != landmarks {
                    return false;
                }
                landmarks = number;
                values = 0;
            }
            Record::Value { number, index, .. } => {
                if number != landmarks || index == 0 || index - 1 != values {
                    return false;
                }
                values = index;
            }
        }
    }
    true
}

// How many values come before the next landmark.
fn count_values(found: &[Found]) -> usize
    ensures { result ≡ length (values_first (without_slots found.now)) }
{
    let mut count = 0;
    for one in found {
        match one.holds {
            Record::Free | Record::Stream { .. } | Record::Window { .. } => {}
            Record::Landmark { .. } => return count,
            Record::Value { .. } => count += 1,
        }
    }
    count
}

// Whether a record, if it is that of a landmark that is closed, says how many values come behind it.
fn is_counted(holds: &Record, behind: &[Found]) -> bool
    ensures { result ≡ is_counted holds.now (without_slots behind.now) }
{
    match *holds {
        Record::Landmark {
            values,
            finish: Some(_),
            ..
        } => count_values(behind) == values as usize,
        _ => true,
    }
}

// Whether each landmark that is closed has as many values as its record says.
fn are_counted(found: &[Found]) -> bool
    ensures { result ≡ are_counted (without_slots found.now) }
{
    let mut left = found;
    while let Some((first, tail)) = left.split_first() {
        if !is_counted(&first.holds, tail) {
            return false;
        }
        left = tail;
    }
    true
}

// Whether a time isn't after the end, if there is one.
fn is_up_to(t: u64, finish: Option<u64>) -> bool
    ensures { result ≡ is_up_to t finish }
{
    match finish {
        Some(finish) => t <= finish,
        None => true,
    }
}

// Whether the values before the next landmark come at rising times, from one on and up to the end, if there is one.
fn rise_within(start: u64, finish: Option<u64>, found: &[Found]) -> bool
    requires { All (λ f. IsUsable f.holds) found.now }
    ensures { result ≡ rise_within start finish (values_first (without_slots found.now)) }
{
    let mut from = start;
    for one in found {
        match one.holds {
            Record::Free | Record::Stream { .. } | Record::Window { .. } => {}
            Record::Landmark { .. } => return true,
            Record::Value { t, .. } => {
                if t < from || !is_up_to(t, finish) {
                    return false;
                }
                from = t + 1;
            }
        }
    }
    true
}

// Whether a landmark may open then.
fn opens_from(from: Option<u64>, start: u64) -> bool
    ensures { result ≡ opens_from from start }
{
    match from {
        Some(from) => from <= start,
        None => false,
    }
}

// Whether a record, if it is that of a landmark, comes in order of time, with the values behind it.
fn is_in_time(from: Option<u64>, holds: &Record, behind: &[Found]) -> bool
    requires { All (λ f. IsUsable f.holds) behind.now }
    ensures { result ≡ is_in_time from holds.now (without_slots behind.now) }
{
    match *holds {
        Record::Landmark { start, finish, .. } => opens_from(from, start)
            && rise_within(start, finish, behind),
        _ => true,
    }
}

// From when on a landmark may open after a record.
fn next_from(from: Option<u64>, holds: &Record) -> Option<u64>
    requires { IsUsable holds.now }
    ensures { result ≡ next_from from holds.now }
{
    match *holds {
        Record::Landmark {
            finish: Some(t),
            ..
        } => Some(t + 1),
        Record::Landmark { finish: None, .. } => None,
        _ => from,
    }
}

// Whether the landmarks and their values come in order of time.
fn are_in_time(found: &[Found]) -> bool
    requires { All (λ f. IsUsable f.holds) found.now }
    ensures { result ≡ are_in_time (Some 0) (without_slots found.now) }
{
    let mut from = Some(0);
    let mut left = found;
    while let Some((first, tail)) = left.split_first() {
        if !is_in_time(from, &first.holds, tail) {
            return false;
        }
        from = next_from(from, &first.holds);
        left = tail;
    }
    true
}

// Whether all conditions hold.
fn meet_all(found: &[Found]) -> bool
    requires { All (λ f. IsUsable f.holds) found.now }
    ensures { result ≡ are_marks (without_slots found.now) }
{
    are_numbered(found) && are_counted(found) && are_in_time(found)
}

// Whether the records, all of one stream, are those of landmarks with all their values.
pub fn are_marks(id: u32, found: &[Found]) -> bool
    requires usable { All (λ f. IsUsable f.holds) found.now }
    requires own { All (λ f. stream_of f.holds ≡ id) found.now }
    ensures { result ≡ are_marks (marks_in id (without_slots found.now)) }
{
    meet_all(found)
}

// The later of two times, where there are any.
pub fn later(time: Option<u64>, other: Option<u64>) -> Option<u64>
    ensures { result ≡ later time other }
{
    match (time, other) {
        (Some(time), Some(other)) => Some(time.max(other)),
        (None, other) => other,
        (time, None) => time,
    }
}

// The landmarks so far, of which the last one is still open; when that one is to close; and their latest time, with its closing.
#[derive(Drop)]
pub struct Marks {
    pub landmarks: Landmarks,
    pub finish: Option<u64>,
    pub latest: Option<u64>,
}

impl Marks {
    // The last landmark closes, if it is to.
    fn close(&mut self)
        requires { MayClose (marks_shown self.old) }
        ensures { marks_shown self.new ≡ all_closed (marks_shown self.old) }
    {
        if let Some(t) = self.finish {
            self.landmarks.finish(t);
        }
    }

    // It closes, and the next one opens.
    fn open(&mut self, slot: u32, start: u64, finish: Option<u64>) -> Result<(), RecoverError>
        requires room { HasMarkRoom (marks_shown self.old) }
        requires time { start ≤ LAST_TIME }
        requires close { MayClose (marks_shown self.old) }
        requires after { CanOpen (with_closing self.old.finish self.old.landmarks.landmarks) start }
        ensures ok { OnOk result (marks_shown self.new ≡ with_landmark (marks_shown self.old) slot start finish) }
        ensures err { IfErr result (λ error. error ≡ OutOfMemory) }
    {
        self.close();
        // Asked for the proof alone, here and below: with their number comes what holds of all landmarks.
        let _ = self.landmarks.count();
        self.landmarks.reserve()?;
        self.landmarks.start(start, slot);
        self.finish = finish;
        self.latest = later(self.latest, later(Some(start), finish));
        Ok(())
    }

    // The last landmark takes a value.
    fn add(&mut self, slot: u32, t: u64, v: i64) -> Result<(), RecoverError>
        requires room { HasMarkRoom (marks_shown self.old) }
        requires time { t ≤ LAST_TIME }
        requires after { CanTake self.old.landmarks.landmarks t }
        ensures ok { OnOk result (marks_shown self.new ≡ with_mark_value (marks_shown self.old) slot t v) }
        ensures err { IfErr result (λ error. error ≡ OutOfMemory) }
    {
        let _ = self.landmarks.count();
        self.landmarks.reserve()?;
        self.landmarks.add(t, v, slot);
        self.latest = later(self.latest, Some(t));
        Ok(())
    }

    // The next record, where others than those of landmarks and of values change nothing.
    fn take(&mut self, found: &Found) -> Result<(), RecoverError>
        requires usable { IsUsable found.now.holds }
        requires room { HasMarkRoom (marks_shown self.old) }
        requires may { MayCome (marks_shown self.old) found.now.holds }
        ensures ok { OnOk result (marks_shown self.new ≡ with_found (marks_shown self.old) found.now.slot found.now.holds) }
        ensures err { IfErr result (λ error. error ≡ OutOfMemory) }
    {
        match found.holds {
            Record::Free | Record::Stream { .. } | Record::Window { .. } => Ok(()),
            Record::Landmark { start, finish, .. } => self.open(found.slot, start, finish),
            Record::Value { t, v, .. } => self.add(found.slot, t, v),
        }
    }
}

// The landmarks and their latest time, each record in its slot.
pub fn marks_of(alloc: Global, id: u32, found: &[Found]) -> Result<Marks, RecoverError>
    requires usable { All (λ f. IsUsable f.holds) found.now }
    requires own { All (λ f. stream_of f.holds ≡ id) found.now }
    requires few { length found.now < MOST_RECORDS }
    requires sound { IsTrue (are_marks (marks_in id (without_slots found.now))) }
    ensures ok { IfOk result (λ marks. AreMade id found.now (marks_shown marks)) }
    ensures known { IfOk result (λ marks. AreKnown marks.landmarks) }
    ensures err { IfErr result (λ error. error ≡ OutOfMemory) }
{
    let mut marks = Marks {
        landmarks: Landmarks::new(alloc),
        finish: None,
        latest: None,
    };
    for one in found {
        marks.take(one)?;
    }
    marks.close();
    let _ = marks.landmarks.count();
    Ok(marks)
}
